// The REG board.
use crate::register_files::RegisterProcessor;
use processor::boards::CodedBoard;

pub type Reg<'a> = CodedBoard<'a, RegisterProcessor>;
