// Examples of names, ranges, patterns, their matches and their values.
#![tactic(auto)]

#[cfg(test)]
mod matches;
#[cfg(test)]
mod missing;
#[cfg(test)]
mod parts;
