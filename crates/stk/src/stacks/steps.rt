// What STK's instructions do to the stack.
ghost use Rattle.std.specs.Prelude.{◌≡◌};
ghost use Rattle.stk.specs.Designs.{stk_design};
ghost use Rattle.stk.specs.Stacks.{stacked};
ghost use Rattle.stk.specs.Soundness.{stk_sound, stk_result_places};

use super::{DEPTH_LIMIT, ValueStack};
use crate::opcodes::{Opcode, S};
use board::instructions::Instruction;
use pattern::places::Place;
use processor::Processor;
use processor::faults::Misplaced;
use rows::Row;

// Carries out STK's instructions on the stack.
impl Processor for ValueStack {
    ghost design = { stk_design };

    ghost own = { stacked };

    ghost sound = { stk_sound };

    ghost result_places = { stk_result_places };

    fn depth_limit() -> usize {
        DEPTH_LIMIT
    }

    fn store_place() -> Place {
        let Ok(place) = Place::try_from(S) else {
            unreachable()
        };
        place
    }

    fn operation(opcode: u32) -> Option<Instruction> {
        Opcode::try_from(opcode).ok()?.instruction()
    }

    fn low_byte(_depth: usize, _operands: usize) -> u8 {
        0
    }

    fn start() -> ValueStack {
        ValueStack { values: Row::new() }
    }

    fn misplaced(&self, first: u32, operands: usize, results: usize) -> bool {
        let len = self.values.len();
        first % 256 != 0 || len < operands || results > DEPTH_LIMIT - (len - operands)
    }

    fn apply(
        &mut self,
        first: u32,
        instruction: &Instruction,
        payloads: &[u32],
        setting: &[u32],
    ) -> Result<(), Misplaced> {
        let meaning = &instruction.meaning;
        if self.misplaced(first, meaning.operands, 1) {
            return Err(Misplaced);
        }
        let below = self.values.len() - meaning.operands;
        let (_, operands) = self.values.as_slice().split_at(below);
        let value = meaning.value(operands, payloads, setting);
        self.values.truncate(below);
        let Ok(()) = self.values.push(value) else {
            unreachable()
        };
        Ok(())
    }

    fn take(&mut self, first: u32) -> Result<u32, Misplaced> {
        if self.misplaced(first, 1, 0) {
            return Err(Misplaced);
        }
        self.values.pop().ok_or(Misplaced)
    }
}
