// What a board that keeps its code as words appends to it.
use rows::Row;

mod judging;

// An instruction has at most so many words: its first and one payload.
pub const WORD_LIMIT: usize = 2;

// What a call finds: the letters of the PLACES that wait, the deepest first, and how many words are free.
#[derive(Clone, Copy)]
pub struct Room<'a> {
    pub waiting: &'a [u8],
    pub free: usize,
}

// An issue: an opcode with two payloads.
#[derive(Clone, Copy)]
pub struct Request {
    pub opcode: u32,
    pub first: u32,
    pub second: u32,
}

// The words of one instruction, how many operands wait below its result, and the letter of the result's PLACE.
#[derive(Clone, Copy)]
pub struct Emission {
    pub words: Row<u32, WORD_LIMIT>,
    pub below: usize,
    pub result: u8,
}
