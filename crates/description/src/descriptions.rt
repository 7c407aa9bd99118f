// The description as a value.
ghost use Rattle.std.specs.Prelude.{◌≡◌, ◌-◌, ◌≤◌, true, length};
ghost use Rattle.description.specs.Names.{declared_once};
ghost use Rattle.description.specs.Fits.{all_fit};

use crate::rules::{Nonterminal, Rule};
use rows::Row;

mod calls;

// A description has at most so many names.
pub const NAME_LIMIT: usize = 16;

// It has at most so many rules.
pub const RULE_LIMIT: usize = 128;

// The names and the rules in order, and the number of the start name where there are names.
#[derive(Clone, Copy)]
pub struct Description {
    pub names: Row<Nonterminal, NAME_LIMIT>,
    pub start: usize,
    pub rules: Row<Rule, RULE_LIMIT>,
    ghost few_names: { length names ≤ 16 },
    ghost few_rules: { length rules ≤ 128 },
    ghost once: { declared_once names ≡ true },
    ghost started: { start ≤ length names - 1 },
    ghost fitting: { all_fit names rules ≡ true },
}
