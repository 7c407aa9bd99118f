// The payloads that a constant of a pattern admits. Only this module compares the ends of a range.
ghost use Rattle.std.specs.Prelude.{◌^◌, ◌<◌, ◌≤◌};

mod calls;

// The words from `low` to `high`.
#[derive(Clone, Copy, Debug, PartialEq, Eq)]
pub struct Interval {
    low: u32,
    high: u32,
    ghost ordered: { low ≤ high },
    ghost bounded: { high < 2 ^ 32 },
}
