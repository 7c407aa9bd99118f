// Instructions by their mnemonics.
ghost use Rattle.pattern.specs.Letters.{letters_of};
ghost use Rattle.board.specs.Instructions.{InstructionNamed};

use crate::Processor;
use board::instructions::Instruction;
use pattern::names::ShortName;

// Opcodes are below this.
const OPCODE_END: u32 = 256;

// The instruction with that mnemonic. A `find_map` over the opcodes and a `filter_map` with `find` were tried, and their proofs did not close.
pub fn named<P: Processor>(mnemonic: &ShortName) -> Option<Instruction>
    ensures { InstructionNamed P.Processor.design.fixed_part (letters_of mnemonic.now) result }
{
    for opcode in 0..OPCODE_END {
        if let Some(instruction) = P::operation(opcode) {
            if instruction.mnemonic == *mnemonic {
                return Some(instruction);
            }
        }
    }
    None
}
