// The processor of REG: its registers, and what carries its instructions out.
ghost use Rattle.std.specs.Prelude.{◌≡◌, ◌+◌, ◌<◌, ◌≤◌, ◌++◌, length, slice_index, slice_set};
ghost use Rattle.pattern.specs.Items.{count_of_operands};
ghost use Rattle.board.specs.Instructions.{operand_list};
ghost use Rattle.reg.specs.Designs.{slot, registers_from, j_for, i_of, j_of, reg_design};
ghost use Rattle.reg.specs.Soundness.{reg_sound, reg_result_places};

use crate::opcodes::{ADDRESS, DATA, Opcode};
use board::instructions::Instruction;
use pattern::items::Item;
use pattern::places::Place;
use processor::Processor;
use processor::faults::Misplaced;
use rows::Row;

const DEPTH_LIMIT: usize = 8;

const LAST_REGISTER: usize = 7;

// The operand at depth i waits in `data` or `address` at index i, by its PLACE.
#[derive(Clone, Copy)]
pub struct RegisterProcessor {
    data: [u32; DEPTH_LIMIT],
    address: [u32; DEPTH_LIMIT],
    ghost data_sized: { length «data» ≡ 8 },
    ghost address_sized: { length address ≡ 8 },
}

// The depth of the result, as a first word has it.
fn result_depth(first: u32) -> usize
    ensures { result ≡ i_of first }
{
    (first % 256 / 16) as usize
}

// The depth of the last operand, as a first word has it.
fn operand_depth(first: u32) -> usize
    ensures { result ≡ j_of first }
{
    (first % 16) as usize
}

// The depth of the last operand, as it is to be; 0 where there is none.
fn asked_depth(depth: usize, operands: usize) -> usize
    requires { depth < 256 }
    ensures { result ≡ j_for depth operands }
{
    match operands {
        2 => depth + 1,
        1 => depth,
        _ => 0,
    }
}

impl RegisterProcessor {
    // The register of a PLACE with that number.
    fn register(&self, letter: u8, number: usize) -> u32
        requires { number < 8 }
        ensures { result ≡ slice_index (self.now.«data» ++ self.now.address) (slot letter number) }
    {
        if letter == ADDRESS {
            self.address[number]
        } else {
            self.data[number]
        }
    }

    // Sets the register of a PLACE with that number.
    fn set_register(&mut self, letter: u8, number: usize, value: u32)
        requires { number < 8 }
        ensures { (self.new.«data» ++ self.new.address) ≡ slice_set (self.old.«data» ++ self.old.address) (slot letter number) value }
    {
        if letter == ADDRESS {
            self.address[number] = value;
        } else {
            self.data[number] = value;
        }
    }

    // The registers of the operands among the items, from that number on.
    fn operands(&self, items: &[Item], from: usize) -> Row<u32, 2>
        requires { (count_of_operands items.now ≤ 2) × (from + count_of_operands items.now ≤ 8) }
        ensures { result ≡ registers_from from (operand_list items.now) (self.now.«data» ++ self.now.address) }
    {
        let mut values = Row::new();
        for item in items {
            if let Item::Operand(letter) = *item {
                let value = self.register(letter, from + values.len());
                let Ok(()) = values.push(value) else {
                    unreachable()
                };
            }
        }
        values
    }
}

// Carries out REG's instructions on the registers.
impl Processor for RegisterProcessor {
    ghost design = { reg_design };

    ghost own = { λ p. p.«data» ++ p.address };

    ghost sound = { reg_sound };

    ghost result_places = { reg_result_places };

    fn depth_limit() -> usize {
        DEPTH_LIMIT
    }

    fn store_place() -> Place {
        let Ok(place) = Place::try_from(DATA) else {
            unreachable()
        };
        place
    }

    fn operation(opcode: u32) -> Option<Instruction> {
        Opcode::try_from(opcode).ok()?.instruction()
    }

    fn low_byte(depth: usize, operands: usize) -> u8 {
        let result = depth % 256;
        ((result * 16 + asked_depth(result, operands)) % 256) as u8
    }

    fn start() -> RegisterProcessor {
        RegisterProcessor {
            data: [0; DEPTH_LIMIT],
            address: [0; DEPTH_LIMIT],
        }
    }

    fn misplaced(&self, first: u32, operands: usize, _: usize) -> bool {
        let result = result_depth(first);
        let last = operand_depth(first);
        result > LAST_REGISTER || last > LAST_REGISTER || last != asked_depth(result, operands)
    }

    fn apply(
        &mut self,
        first: u32,
        instruction: &Instruction,
        payloads: &[u32],
        setting: &[u32],
    ) -> Result<(), Misplaced> {
        let meaning = &instruction.meaning;
        if self.misplaced(first, meaning.operands, 1) {
            return Err(Misplaced);
        }
        let depth = result_depth(first);
        let operands = self.operands(meaning.items.as_slice(), depth);
        let value = meaning.value(operands.as_slice(), payloads, setting);
        self.set_register(instruction.result.letter, depth, value);
        Ok(())
    }

    fn take(&mut self, first: u32) -> Result<u32, Misplaced> {
        if self.misplaced(first, 1, 0) {
            return Err(Misplaced);
        }
        Ok(self.register(DATA, result_depth(first)))
    }
}
