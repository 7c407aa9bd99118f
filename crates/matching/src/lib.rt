// Trees with the parts of their nodes, and where a pattern matches one.
#![tactic(auto)]

pub mod faults;
pub mod laws;
pub mod matches;
mod search;
pub mod trees;
