// What is true of every STK board, for whoever reads the contracts.
ghost use Rattle.std.specs.Prelude.{◌≡◌, length, replicate};
ghost use Rattle.processor.specs.declared.boards.CodedBoard.{CodedBoard};
ghost use Rattle.processor.specs.CodedBoards.{waiting_places};
ghost use Rattle.stk.specs.declared.stacks.ValueStack.{ValueStack};
ghost use Rattle.stk.specs.Table.{stack_place};

use crate::stacks::ValueStack;
use processor::Processor;

// Every operand waits in PLACE S.
pub fn waits_in_s()
    ensures { (b : CodedBoard ValueStack ⟦<ValueStack as Processor>⟧) → waiting_places b ≡ replicate (length (waiting_places b)) stack_place }
{}
