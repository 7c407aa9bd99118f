// Names, figures, ranges and patterns, and the value of a pattern.
#![tactic(auto)]

pub mod figures;
pub mod intervals;
pub mod items;
pub mod laws;
pub mod names;
pub mod patterns;
pub mod places;
mod values;
