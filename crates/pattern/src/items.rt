// The items of a pattern.
ghost use Rattle.std.specs.Prelude.{◌≡◌};
ghost use Rattle.pattern.specs.Items.{item_parts, operands_in, leaves_in};
ghost use Rattle.pattern.specs.declared.items.Item.TheVariants.{Variable};

use crate::intervals::Interval;
use operators::{Binary, Unary};
use rows::Entry;

// An operand by its number, an operator, or a leaf: a constant of a range, or any variable.
#[derive(Clone, Copy, Debug, PartialEq, Eq)]
pub enum Item {
    Operand(u8),
    Unary(Unary),
    Binary(Binary),
    Constant(Interval),
    Variable,
}

impl Entry for Item {
    ghost blank = { Variable };

    fn blank() -> Item {
        Item::Variable
    }
}

impl Item {
    // How many parts it has.
    pub fn arity(self) -> usize
        ensures { result ≡ item_parts self }
    {
        match self {
            Item::Operand(_) | Item::Constant(_) | Item::Variable => 0,
            Item::Unary(_) => 1,
            Item::Binary(_) => 2,
        }
    }

    // Whether it is an operand, as a count.
    pub fn operands(self) -> usize
        ensures { result ≡ operands_in self }
    {
        match self {
            Item::Operand(_) => 1,
            Item::Unary(_) | Item::Binary(_) | Item::Constant(_) | Item::Variable => 0,
        }
    }

    // Whether it is a leaf, as a count.
    pub fn leaves(self) -> usize
        ensures { result ≡ leaves_in self }
    {
        match self {
            Item::Constant(_) | Item::Variable => 1,
            Item::Operand(_) | Item::Unary(_) | Item::Binary(_) => 0,
        }
    }
}
