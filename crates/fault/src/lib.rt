// Refusals, as a key shows them.
#![tactic(auto)]

ghost use Rattle.std.specs.Prelude.{◌≡◌, ℕ};

// Why something is refused: a number of the table of faults, and the place at which it is told.
pub trait Fault: Copy {
    ghost number_of: { Self → ℕ };

    ghost place_of: { Self → ℕ };

    fn number(self) -> u32
        ensures { result ≡ number_of self };

    fn place(self) -> usize
        ensures { result ≡ place_of self };
}
