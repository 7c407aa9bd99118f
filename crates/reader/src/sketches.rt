// A rule's pattern while it is read.
ghost use Rattle.std.specs.Prelude.{◌≡◌, ◌≤◌, map, length};
ghost use Rattle.description.specs.Outlines.{part_of};
ghost use Rattle.reader.specs.Reading.{operands_among, leaves_among};
ghost use Rattle.reader.specs.Sketches.{blank_bracket, brackets_of, items_taken};

use pattern::items::Item;
use pattern::patterns::ITEM_LIMIT;
use rows::{Entry, Row};

mod calls;

// An operator with parts: how many it has, and where the operator stands.
#[derive(Clone, Copy)]
pub struct Head {
    pub arity: usize,
    pub place: usize,
}

// An open bracket: its operator, and how many parts are read.
#[derive(Clone, Copy)]
pub struct Opened {
    pub head: Head,
    pub done: usize,
}

impl Entry for Opened {
    ghost blank = { blank_bracket };

    fn blank() -> Opened {
        Opened {
            head: Head { arity: 0, place: 0 },
            done: 0,
        }
    }
}

// The left name, the items so far with the numbers of their operands and leaves, and the open brackets, the innermost last:
// their operators and the parts that are read in them are among the items.
#[derive(Clone, Copy)]
pub struct Sketch {
    pub left: u8,
    pub items: Row<Item, ITEM_LIMIT>,
    pub operands: usize,
    pub leaves: usize,
    pub opened: Row<Opened, ITEM_LIMIT>,
    ghost few: { length items ≤ 7 },
    ghost counted: { operands ≡ operands_among (map part_of items) },
    ghost tallied: { leaves ≡ leaves_among (map part_of items) },
    ghost laid: { items_taken (brackets_of opened) ≤ length items },
}
