// Why a board refuses.
ghost use Rattle.board.specs.Faults.{board_number, board_place, run_number, run_place};

use fault::Fault;

// Why an issue or a store is refused. Each holds how many operands wait.
#[derive(Clone, Copy, Debug, PartialEq, Eq)]
pub enum BoardFault {
    // No instruction has the opcode.
    UnknownOpcode(usize),
    // An operand is missing, or lies in another PLACE.
    OperandLacking(usize),
    // A payload is not admitted, or a variable is over 63.
    PayloadBarred(usize),
    // The result would lie beyond the depth limit.
    TooDeep(usize),
    // Too few words are free.
    NoRoom(usize),
}

impl Fault for BoardFault {
    ghost number_of = { board_number };

    ghost place_of = { board_place };

    fn number(self) -> u32 {
        match self {
            BoardFault::UnknownOpcode(_) => 21,
            BoardFault::OperandLacking(_) => 22,
            BoardFault::PayloadBarred(_) => 23,
            BoardFault::TooDeep(_) => 24,
            BoardFault::NoRoom(_) => 25,
        }
    }

    fn place(self) -> usize {
        match self {
            BoardFault::UnknownOpcode(waiting)
            | BoardFault::OperandLacking(waiting)
            | BoardFault::PayloadBarred(waiting)
            | BoardFault::TooDeep(waiting)
            | BoardFault::NoRoom(waiting) => waiting,
        }
    }
}

// Why a run is refused.
#[derive(Clone, Copy, Debug, PartialEq, Eq)]
pub enum RunFault {
    // Not exactly 64 variables; holds how many.
    WrongCount(usize),
}

impl Fault for RunFault {
    ghost number_of = { run_number };

    ghost place_of = { run_place };

    fn number(self) -> u32 {
        match self {
            RunFault::WrongCount(_) => 34,
        }
    }

    fn place(self) -> usize {
        match self {
            RunFault::WrongCount(count) => count,
        }
    }
}
