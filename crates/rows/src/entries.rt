// What can stand in a row.
ghost use Rattle.std.specs.Prelude.{◌≡◌};

// A plain value with one that fills unused places. Not `Default`, which does not say which value it gives.
pub trait Entry: Copy {
    ghost blank: { Self };

    fn blank() -> Self
        ensures { result ≡ blank };
}

impl Entry for u8 {
    ghost blank = { 0 };

    fn blank() -> u8 {
        0
    }
}

impl Entry for u32 {
    ghost blank = { 0 };

    fn blank() -> u32 {
        0
    }
}

impl Entry for usize {
    ghost blank = { 0 };

    fn blank() -> usize {
        0
    }
}
