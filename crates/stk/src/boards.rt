// The STK board.
use crate::stacks::ValueStack;
use processor::boards::CodedBoard;

pub type Stk<'a> = CodedBoard<'a, ValueStack>;
