// The instructions of STK.
ghost use Rattle.std.specs.Prelude.{◌≡◌, Some, None, IsOkAnd, IsSomeAnd, MatchResult};
ghost use Rattle.pattern.specs.Patterns.{items_of};
ghost use Rattle.pattern.specs.Shapes.{reading};
ghost use Rattle.board.specs.Instructions.{Denotes};
ghost use Rattle.stk.specs.Table.{number_of, opcode_of, mnemonic_of, meaning_of, operation_for};

use board::instructions::Instruction;
use operators::{Binary, Unary};
use pattern::intervals::Interval;
use pattern::items::Item;
use pattern::names::ShortName;
use pattern::patterns::{MalformedPattern, Pattern};
use pattern::places::Place;
use processor::faults::UnknownNumber;
use processor::mnemonics;

// The PLACE of the stack.
pub(crate) const S: u8 = b'S';

// The table's lines; those with two operands and those with one go by their operators. Boards differ in their tables, so each has its own.
#[derive(Clone, Copy, Debug, PartialEq, Eq)]
pub enum Opcode {
    Push,
    Load,
    Pair(Binary),
    Single(Unary),
    Inc,
    Addv,
    Madd,
}

impl TryFrom<u32> for Opcode {
    type Error = UnknownNumber;

    ghost try_from_gives = { λ n r. MatchResult r (λ o. opcode_of n ≡ Some o) (λ _. opcode_of n ≡ None) };

    fn try_from(number: u32) -> Result<Opcode, UnknownNumber> {
        Ok(match number {
            1 => Opcode::Push,
            2 => Opcode::Load,
            3 => Opcode::Pair(Binary::Add),
            4 => Opcode::Pair(Binary::Sub),
            5 => Opcode::Pair(Binary::Mul),
            6 => Opcode::Pair(Binary::And),
            7 => Opcode::Pair(Binary::Or),
            8 => Opcode::Pair(Binary::Xor),
            9 => Opcode::Pair(Binary::Shl),
            10 => Opcode::Pair(Binary::Shr),
            11 => Opcode::Pair(Binary::Sar),
            12 => Opcode::Pair(Binary::Lt),
            13 => Opcode::Single(Unary::Neg),
            14 => Opcode::Single(Unary::Not),
            15 => Opcode::Inc,
            16 => Opcode::Addv,
            17 => Opcode::Madd,
            _ => return Err(UnknownNumber),
        })
    }
}

impl From<Opcode> for u32 {
    ghost from_gives = { λ o n. n ≡ number_of o };

    fn from(opcode: Opcode) -> u32 {
        match opcode {
            Opcode::Push => 1,
            Opcode::Load => 2,
            Opcode::Pair(Binary::Add) => 3,
            Opcode::Pair(Binary::Sub) => 4,
            Opcode::Pair(Binary::Mul) => 5,
            Opcode::Pair(Binary::And) => 6,
            Opcode::Pair(Binary::Or) => 7,
            Opcode::Pair(Binary::Xor) => 8,
            Opcode::Pair(Binary::Shl) => 9,
            Opcode::Pair(Binary::Shr) => 10,
            Opcode::Pair(Binary::Sar) => 11,
            Opcode::Pair(Binary::Lt) => 12,
            Opcode::Single(Unary::Neg) => 13,
            Opcode::Single(Unary::Not) => 14,
            Opcode::Inc => 15,
            Opcode::Addv => 16,
            Opcode::Madd => 17,
        }
    }
}

impl Opcode {
    fn mnemonic(self) -> &'static [u8]
        ensures { result.now ≡ mnemonic_of self }
    {
        match self {
            Opcode::Push => b"push",
            Opcode::Load => b"load",
            Opcode::Pair(operator) => mnemonics::of_pair(operator),
            Opcode::Single(operator) => mnemonics::of_single(operator),
            Opcode::Inc => b"inc",
            Opcode::Addv => b"addv",
            Opcode::Madd => b"madd",
        }
    }

    // The pattern of its meaning; it is one. No `Option`: made in each line, that would move the pattern once more.
    fn meaning(self) -> Result<Pattern, MalformedPattern>
        ensures { IsOkAnd result (λ p. items_of p ≡ reading (meaning_of self)) }
    {
        let operand = Item::Operand(S);
        match self {
            Opcode::Push => {
                let constant = Item::Constant(Interval::new(0, u32::MAX).ok_or(MalformedPattern)?);
                Pattern::try_from([constant])
            }
            Opcode::Load => Pattern::try_from([Item::Variable]),
            Opcode::Pair(operator) => Pattern::try_from([Item::Binary(operator), operand, operand]),
            Opcode::Single(operator) => Pattern::try_from([Item::Unary(operator), operand]),
            Opcode::Inc => Pattern::try_from([
                Item::Binary(Binary::Add),
                operand,
                Item::Constant(Interval::new(1, 1).ok_or(MalformedPattern)?),
            ]),
            Opcode::Addv => Pattern::try_from([Item::Binary(Binary::Add), operand, Item::Variable]),
            Opcode::Madd => Pattern::try_from([
                Item::Binary(Binary::Add),
                operand,
                Item::Binary(Binary::Mul),
                operand,
                Item::Constant(Interval::new(0, u32::MAX).ok_or(MalformedPattern)?),
            ]),
        }
    }

    // The instruction with all its parts; there is one.
    pub(crate) fn instruction(self) -> Option<Instruction>
        ensures { IsSomeAnd result (λ i. Denotes i (operation_for self)) }
    {
        Some(Instruction {
            opcode: u32::from(self),
            mnemonic: ShortName::try_from(self.mnemonic()).ok()?,
            result: Place::try_from(S).ok()?,
            meaning: self.meaning().ok()?,
        })
    }
}
