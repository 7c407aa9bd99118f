// The amounts of the three cost kinds.
ghost use Rattle.std.specs.Prelude.{◌^◌, ◌<◌};

// Cycles, added up.
#[derive(Clone, Copy, Debug, PartialEq, Eq, PartialOrd, Ord)]
pub struct Cycles {
    pub amount: u32,
    ghost bounded: { amount < 2 ^ 32 },
}

// Bytes, and among equals cycles: sizes are ordered by their fields in turn.
#[derive(Clone, Copy, Debug, PartialEq, Eq, PartialOrd, Ord)]
pub struct Size {
    pub bytes: u32,
    pub amount: u32,
    ghost short: { bytes < 2 ^ 32 },
    ghost bounded: { amount < 2 ^ 32 },
}

// The cycles of the longest instruction.
// A type of its own beside `Cycles`: the two differ in their sum, an operation, and that is what `Cost` is generic in. Their order and
// their printing are alike, a line each.
#[derive(Clone, Copy, Debug, PartialEq, Eq, PartialOrd, Ord)]
pub struct Longest {
    pub amount: u32,
    ghost bounded: { amount < 2 ^ 32 },
}
