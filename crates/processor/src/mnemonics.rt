// The mnemonics of the instructions that carry out an operator: they are the same on every board.
ghost use Rattle.std.specs.Prelude.{◌≡◌};
ghost use Rattle.processor.specs.Mnemonics.{pair_letters, single_letters};

use operators::{Binary, Unary};

// Of an operator with two parts.
pub fn of_pair(operator: Binary) -> &'static [u8]
    ensures { result.now ≡ pair_letters operator }
{
    match operator {
        Binary::Add => b"add",
        Binary::Sub => b"sub",
        Binary::Mul => b"mul",
        Binary::And => b"and",
        Binary::Or => b"or",
        Binary::Xor => b"xor",
        Binary::Shl => b"shl",
        Binary::Shr => b"shr",
        Binary::Sar => b"sar",
        Binary::Lt => b"lt",
    }
}

// Of an operator with one part.
pub fn of_single(operator: Unary) -> &'static [u8]
    ensures { result.now ≡ single_letters operator }
{
    match operator {
        Unary::Neg => b"neg",
        Unary::Not => b"not",
    }
}
