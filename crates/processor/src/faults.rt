// Why a simulator refuses a list of words, and a processor an instruction or its number.
ghost use Rattle.processor.specs.Faults.{simulator_number, simulator_place};

use fault::Fault;

// A first word cannot be carried out as it stands.
#[derive(Clone, Copy, Debug, PartialEq, Eq)]
pub struct Misplaced;

// No instruction has the number.
#[derive(Clone, Copy, Debug, PartialEq, Eq)]
pub struct UnknownNumber;

// All but the first hold the index of the instruction's first word.
#[derive(Clone, Copy, Debug, PartialEq, Eq)]
pub enum SimulatorFault {
    // Not exactly 64 variables; holds how many.
    WrongCount(usize),
    // No instruction has the opcode.
    UnknownOpcode(usize),
    // The low byte is wrong, or the processor cannot carry the instruction out as it stands.
    Misplaced(usize),
    // The payload is missing or not admitted, or a variable is over 63.
    PayloadBarred(usize),
}

impl Fault for SimulatorFault {
    ghost number_of = { simulator_number };

    ghost place_of = { simulator_place };

    fn number(self) -> u32 {
        match self {
            SimulatorFault::UnknownOpcode(_) => 31,
            SimulatorFault::Misplaced(_) => 32,
            SimulatorFault::PayloadBarred(_) => 33,
            SimulatorFault::WrongCount(_) => 34,
        }
    }

    fn place(self) -> usize {
        match self {
            SimulatorFault::UnknownOpcode(place)
            | SimulatorFault::Misplaced(place)
            | SimulatorFault::PayloadBarred(place)
            | SimulatorFault::WrongCount(place) => place,
        }
    }
}
