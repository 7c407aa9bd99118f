// Descriptions read from text.
#![tactic(auto)]

pub mod faults;
pub mod laws;
mod lexemes;
mod lines;
mod patterns;
mod progress;
pub mod read;
mod rules;
mod sketches;
mod steps;
#[cfg(test)]
mod tests;
