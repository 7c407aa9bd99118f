// The instructions of a board.
use pattern::names::ShortName;
use pattern::patterns::Pattern;
use pattern::places::Place;

mod checks;

// The meaning's operands go by the letters of their PLACES.
#[derive(Clone, Copy, PartialEq)]
pub struct Instruction {
    pub opcode: u32,
    pub mnemonic: ShortName,
    pub result: Place,
    pub meaning: Pattern,
}
