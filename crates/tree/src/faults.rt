// Why a statement or an evaluation is refused.
ghost use Rattle.tree.specs.Faults.{statement_number, statement_place, evaluation_number, evaluation_place};

use fault::Fault;

// What is wrong with a statement.
#[derive(Clone, Copy, Debug, PartialEq, Eq)]
pub enum StatementFault {
    // No tree stands there; holds the node at fault, or the node count.
    Malformed(usize),
    // More than 256 nodes.
    TooLong,
    // A variable's number is over 63; holds its node, or the node count for the target.
    VariableOver(usize),
}

impl Fault for StatementFault {
    ghost number_of = { statement_number };

    ghost place_of = { statement_place };

    fn number(self) -> u32 {
        match self {
            StatementFault::Malformed(_) => 11,
            StatementFault::TooLong => 12,
            StatementFault::VariableOver(_) => 13,
        }
    }

    fn place(self) -> usize {
        match self {
            StatementFault::Malformed(place) => place,
            StatementFault::TooLong => 256,
            StatementFault::VariableOver(place) => place,
        }
    }
}

// Why an evaluation is refused.
#[derive(Clone, Copy, Debug, PartialEq, Eq)]
pub enum EvaluationFault {
    // Not exactly 64 variables; holds how many.
    WrongCount(usize),
    // The first statement at fault, by its index.
    Refused {
        statement: usize,
        fault: StatementFault,
    },
}

impl Fault for EvaluationFault {
    ghost number_of = { evaluation_number };

    ghost place_of = { evaluation_place };

    fn number(self) -> u32 {
        match self {
            EvaluationFault::WrongCount(_) => 34,
            EvaluationFault::Refused { fault, .. } => fault.number(),
        }
    }

    fn place(self) -> usize {
        match self {
            EvaluationFault::WrongCount(count) => count,
            EvaluationFault::Refused { fault, .. } => fault.place(),
        }
    }
}
