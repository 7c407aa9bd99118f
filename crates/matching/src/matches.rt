// What a match of a pattern at a node says.
ghost use Rattle.std.specs.Prelude.{◌≤◌, length};

use pattern::patterns::{LEAF_LIMIT, OPERAND_LIMIT};
use rows::{Entry, Row};

// An operand by its number, and the node that it falls on.
#[derive(Clone, Copy, Debug, PartialEq, Eq)]
pub struct OperandAt {
    pub operand: u8,
    pub node: usize,
}

impl Entry for OperandAt {
    ghost blank = { record { operand = 0; node = 0 } };

    fn blank() -> OperandAt {
        OperandAt {
            operand: 0,
            node: 0,
        }
    }
}

// Where the operands fall and the payloads of the leaves, from the left.
#[derive(Clone, Copy, PartialEq)]
pub struct Match {
    pub operands: Row<OperandAt, OPERAND_LIMIT>,
    pub payloads: Row<u32, LEAF_LIMIT>,
    ghost few: { length operands ≤ 2 },
    ghost short: { length payloads ≤ 2 },
}
