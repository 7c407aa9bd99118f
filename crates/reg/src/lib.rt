// The REG board: data registers in PLACE D and address registers in PLACE A.
#![tactic(auto)]

pub mod boards;
mod opcodes;
pub mod register_files;
