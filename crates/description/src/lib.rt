// Machine descriptions: nonterminals, rules, and what they keep to.
#![tactic(auto)]

pub mod descriptions;
pub mod laws;
pub mod refusals;
pub mod rules;
#[cfg(test)]
mod tests;
