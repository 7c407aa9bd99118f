// The STK board: a stack, all in PLACE S.
#![tactic(auto)]

pub mod boards;
pub mod laws;
mod opcodes;
pub mod stacks;
