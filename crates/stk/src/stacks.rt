// The stack of a simulation.
ghost use Rattle.std.specs.Prelude.{◌≤◌, length};

use rows::Row;

mod steps;

// A stack holds at most so many values.
const DEPTH_LIMIT: usize = 64;

// At most 64 values, the newest last.
#[derive(Clone, Copy)]
pub struct ValueStack {
    values: Row<u32, DEPTH_LIMIT>,
    ghost within: { length values ≤ 64 },
}
