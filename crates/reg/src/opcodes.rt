// The instructions of REG.
ghost use Rattle.std.specs.Prelude.{◌≡◌, Some, None, IsOkAnd, IsSomeAnd, MatchResult};
ghost use Rattle.pattern.specs.Patterns.{items_of};
ghost use Rattle.pattern.specs.Shapes.{reading};
ghost use Rattle.board.specs.Instructions.{Denotes};
ghost use Rattle.reg.specs.Table.{number_of, opcode_of, mnemonic_of, result_of, meaning_of, operation_for};

use board::instructions::Instruction;
use operators::{Binary, Unary};
use pattern::intervals::Interval;
use pattern::items::Item;
use pattern::names::ShortName;
use pattern::patterns::{MalformedPattern, Pattern};
use pattern::places::Place;
use processor::faults::UnknownNumber;
use processor::mnemonics;

// The PLACE of data registers, from which a store takes its operand.
pub(crate) const DATA: u8 = b'D';

// The PLACE of address registers.
pub(crate) const ADDRESS: u8 = b'A';

// What an instruction does; each has its number and its mnemonic. Boards differ in their tables, so each has its own.
#[derive(Clone, Copy, Debug, PartialEq, Eq)]
pub enum Opcode {
    Ldi,
    Ldq,
    Ldv,
    Pair(Binary),
    Single(Unary),
    Addi,
    Shli,
    Mova,
    Movd,
    Lea,
    Adda,
}

impl TryFrom<u32> for Opcode {
    type Error = UnknownNumber;

    ghost try_from_gives = { λ n r. MatchResult r (λ o. opcode_of n ≡ Some o) (λ _. opcode_of n ≡ None) };

    fn try_from(number: u32) -> Result<Opcode, UnknownNumber> {
        Ok(match number {
            1 => Opcode::Ldi,
            2 => Opcode::Ldq,
            3 => Opcode::Ldv,
            4 => Opcode::Pair(Binary::Add),
            5 => Opcode::Pair(Binary::Sub),
            6 => Opcode::Pair(Binary::Mul),
            7 => Opcode::Pair(Binary::And),
            8 => Opcode::Pair(Binary::Or),
            9 => Opcode::Pair(Binary::Xor),
            10 => Opcode::Pair(Binary::Shl),
            11 => Opcode::Pair(Binary::Shr),
            12 => Opcode::Pair(Binary::Sar),
            13 => Opcode::Pair(Binary::Lt),
            14 => Opcode::Single(Unary::Neg),
            15 => Opcode::Single(Unary::Not),
            16 => Opcode::Addi,
            17 => Opcode::Shli,
            18 => Opcode::Mova,
            19 => Opcode::Movd,
            20 => Opcode::Lea,
            21 => Opcode::Adda,
            _ => return Err(UnknownNumber),
        })
    }
}

impl From<Opcode> for u32 {
    ghost from_gives = { λ o n. n ≡ number_of o };

    fn from(opcode: Opcode) -> u32 {
        match opcode {
            Opcode::Ldi => 1,
            Opcode::Ldq => 2,
            Opcode::Ldv => 3,
            Opcode::Pair(Binary::Add) => 4,
            Opcode::Pair(Binary::Sub) => 5,
            Opcode::Pair(Binary::Mul) => 6,
            Opcode::Pair(Binary::And) => 7,
            Opcode::Pair(Binary::Or) => 8,
            Opcode::Pair(Binary::Xor) => 9,
            Opcode::Pair(Binary::Shl) => 10,
            Opcode::Pair(Binary::Shr) => 11,
            Opcode::Pair(Binary::Sar) => 12,
            Opcode::Pair(Binary::Lt) => 13,
            Opcode::Single(Unary::Neg) => 14,
            Opcode::Single(Unary::Not) => 15,
            Opcode::Addi => 16,
            Opcode::Shli => 17,
            Opcode::Mova => 18,
            Opcode::Movd => 19,
            Opcode::Lea => 20,
            Opcode::Adda => 21,
        }
    }
}

impl Opcode {
    fn mnemonic(self) -> &'static [u8]
        ensures { result.now ≡ mnemonic_of self }
    {
        match self {
            Opcode::Ldi => b"ldi",
            Opcode::Ldq => b"ldq",
            Opcode::Ldv => b"ldv",
            Opcode::Pair(operator) => mnemonics::of_pair(operator),
            Opcode::Single(operator) => mnemonics::of_single(operator),
            Opcode::Addi => b"addi",
            Opcode::Shli => b"shli",
            Opcode::Mova => b"mova",
            Opcode::Movd => b"movd",
            Opcode::Lea => b"lea",
            Opcode::Adda => b"adda",
        }
    }

    // The letter of the result's PLACE.
    fn result(self) -> u8
        ensures { result ≡ result_of self }
    {
        match self {
            Opcode::Mova | Opcode::Lea | Opcode::Adda => ADDRESS,
            Opcode::Ldi | Opcode::Ldq | Opcode::Ldv | Opcode::Pair(_) | Opcode::Single(_) => DATA,
            Opcode::Addi | Opcode::Shli | Opcode::Movd => DATA,
        }
    }

    // The pattern of its meaning; it is one. No `Option`: made in each line, that would move the pattern once more.
    fn meaning(self) -> Result<Pattern, MalformedPattern>
        ensures { IsOkAnd result (λ p. items_of p ≡ reading (meaning_of self)) }
    {
        let data = Item::Operand(DATA);
        let address = Item::Operand(ADDRESS);
        let add = Item::Binary(Binary::Add);
        let shl = Item::Binary(Binary::Shl);
        match self {
            Opcode::Ldi => {
                let constant = Item::Constant(Interval::new(0, u32::MAX).ok_or(MalformedPattern)?);
                Pattern::try_from([constant])
            }
            Opcode::Ldq => {
                let constant = Item::Constant(Interval::new(0, 255).ok_or(MalformedPattern)?);
                Pattern::try_from([constant])
            }
            Opcode::Ldv => Pattern::try_from([Item::Variable]),
            Opcode::Pair(operator) => Pattern::try_from([Item::Binary(operator), data, data]),
            Opcode::Single(operator) => Pattern::try_from([Item::Unary(operator), data]),
            Opcode::Addi => {
                let constant = Item::Constant(Interval::new(0, u32::MAX).ok_or(MalformedPattern)?);
                Pattern::try_from([add, data, constant])
            }
            Opcode::Shli => {
                let constant = Item::Constant(Interval::new(0, 31).ok_or(MalformedPattern)?);
                Pattern::try_from([shl, data, constant])
            }
            Opcode::Mova => Pattern::try_from([data]),
            Opcode::Movd => Pattern::try_from([address]),
            Opcode::Lea => {
                let constant = Item::Constant(Interval::new(0, 3).ok_or(MalformedPattern)?);
                Pattern::try_from([add, address, shl, data, constant])
            }
            Opcode::Adda => {
                let constant = Item::Constant(Interval::new(0, 255).ok_or(MalformedPattern)?);
                Pattern::try_from([add, address, constant])
            }
        }
    }

    // The instruction with all its parts; there is one.
    pub(crate) fn instruction(self) -> Option<Instruction>
        ensures { IsSomeAnd result (λ i. Denotes i (operation_for self)) }
    {
        Some(Instruction {
            opcode: u32::from(self),
            mnemonic: ShortName::try_from(self.mnemonic()).ok()?,
            result: Place::try_from(self.result()).ok()?,
            meaning: self.meaning().ok()?,
        })
    }
}
