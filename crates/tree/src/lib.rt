// Postfix trees, statements and their values, and the bounded stack.
#![tactic(auto)]

pub mod checked;
pub mod evaluation;
pub mod faults;
pub mod laws;
pub mod nodes;
pub mod stack;
#[cfg(test)]
mod tests;
