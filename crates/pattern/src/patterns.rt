// Patterns.
ghost use Rattle.std.specs.Prelude.{◌≡◌, true};
ghost use Rattle.pattern.specs.Items.{pattern_items, count_of_operands, count_of_leaves};

use crate::items::Item;
use rows::Row;

mod calls;
pub(crate) mod counts;

pub const ITEM_LIMIT: usize = 7;

pub const OPERAND_LIMIT: usize = 2;

pub const LEAF_LIMIT: usize = 2;

// 1 to 7 items in reading order, an operator before its parts, with the numbers of their operands and of their leaves.
#[derive(Clone, Copy, PartialEq, Eq)]
pub struct Pattern {
    pub items: Row<Item, ITEM_LIMIT>,
    pub operands: usize,
    pub leaves: usize,
    ghost formed: { pattern_items items ≡ true },
    ghost counted: { operands ≡ count_of_operands items },
    ghost tallied: { leaves ≡ count_of_leaves items },
}

// Items that are no pattern within the limits.
#[derive(Clone, Copy, Debug, PartialEq, Eq)]
pub struct MalformedPattern;
