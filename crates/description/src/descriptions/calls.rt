// What a description is asked and told.
ghost use Rattle.std.specs.Prelude.{◌≡◌, ◌==◌, ◌-◌, ◌<◌, ◌≤◌, ◌⊎◌, [], length, is_some, MatchOption, MatchResult};
ghost use Rattle.pattern.specs.Patterns.{items_of};
ghost use Rattle.pattern.specs.Letters.{letters_of};
ghost use Rattle.description.specs.Descriptions.{names_of, rules_of, start_of, ItemAt, NameAdded, NameDenied, RuleAdded, RuleDenied, StartSet};
ghost use Rattle.description.specs.Fits.{operand_below, operands_below, may_emit};
ghost use Rattle.description.specs.Names.{number_of_text, place_letter};

use super::{Description, NAME_LIMIT, RULE_LIMIT};
use crate::refusals::{NameRefusal, RuleRefusal, Undeclared};
use crate::rules::{Nonterminal, Rule};
use pattern::items::Item;
use pattern::names::ShortName;
use pattern::patterns::Pattern;
use pattern::places::Place;
use rows::Row;

fn operand_below(count: usize, item: Item) -> bool
    ensures { result ≡ operand_below count item }
{
    match item {
        Item::Operand(name) => (name as usize) < count,
        Item::Unary(_) | Item::Binary(_) | Item::Constant(_) | Item::Variable => true,
    }
}

// Whether every operand is one of the first `count` names.
fn operands_below(count: usize, pattern: &Pattern) -> bool
    ensures { result ≡ operands_below count (items_of pattern.now) }
{
    pattern
        .items
        .as_slice()
        .iter()
        .all(|&item| operand_below(count, item))
}

impl Description {
    // No name, no rule.
    pub fn empty() -> Description
        ensures names { names_of result ≡ [] }
        ensures rules { rules_of result ≡ [] }
    {
        Description {
            names: Row::new(),
            start: 0,
            rules: Row::new(),
        }
    }

    // Declares a name. The first one is the start until another is set.
    pub fn add_name(&mut self, name: Nonterminal) -> Result<(), NameRefusal>
        ensures { MatchResult result (λ _. NameAdded self.old name self.new) (λ e. (self.new ≡ self.old) × NameDenied (names_of self.old) name e) }
    {
        if self.names.len() == NAME_LIMIT {
            return Err(NameRefusal::TooMany);
        }
        if self.declares(&name.name) {
            return Err(NameRefusal::Declared);
        }
        self.names.push(name).map_err(|_| NameRefusal::TooMany)
    }

    // The number of the name with that text.
    pub fn number_of(&self, name: &ShortName) -> Option<usize>
        ensures { result ≡ number_of_text (letters_of name.now) (names_of self.now) }
    {
        self.names
            .as_slice()
            .iter()
            .position(|known| known.name == *name)
    }

    fn declares(&self, name: &ShortName) -> bool
        ensures { result ≡ is_some (number_of_text (letters_of name.now) (names_of self.now)) }
    {
        self.number_of(name).is_some()
    }

    // Makes the name of that number the start; where there is no such name, nothing changes.
    pub fn set_start(&mut self, number: usize) -> Result<(), Undeclared>
        ensures { MatchResult result (λ _. StartSet self.old number self.new) (λ _. (length (names_of self.old) ≤ number) × (self.new ≡ self.old)) }
    {
        if number >= self.names.len() {
            return Err(Undeclared);
        }
        self.start = number;
        Ok(())
    }

    // Adds a rule, which gets the next number.
    pub fn add_rule(&mut self, rule: Rule) -> Result<(), RuleRefusal>
        ensures { MatchResult result (λ _. RuleAdded self.old rule self.new) (λ e. (self.new ≡ self.old) × RuleDenied (names_of self.old) (rules_of self.old) rule e) }
    {
        if self.rules.len() == RULE_LIMIT {
            return Err(RuleRefusal::TooMany);
        }
        if rule.left as usize >= self.names.len() {
            return Err(RuleRefusal::LeftUndeclared);
        }
        if !operands_below(self.names.len(), &rule.pattern) {
            return Err(RuleRefusal::OperandUndeclared);
        }
        if !self.may_emit(&rule) {
            return Err(RuleRefusal::NotRename);
        }
        self.rules.push(rule).map_err(|_| RuleRefusal::TooMany)
    }

    // Whether the rule emits an instruction, or is a chain rule between names of equal PLACE.
    fn may_emit(&self, rule: &Rule) -> bool
        ensures { result ≡ may_emit (names_of self.now) rule.now rule.now.mnemonic }
    {
        rule.mnemonic.is_some()
            || rule
                .chain_from()
                .is_some_and(|from| self.lie_together(rule.left, from))
    }

    // The name of a number, from 0.
    pub fn name(&self, number: usize) -> Option<Nonterminal>
        ensures { MatchOption result (length (names_of self.now) ≤ number) (λ n. ItemAt (names_of self.now) number n) }
    {
        self.names.as_slice().get(number).copied()
    }

    // Where the values of a name lie.
    fn place_of(&self, number: u8) -> Option<Place>
        ensures { MatchOption result (length (names_of self.now) ≤ number) (λ p. p.letter ≡ place_letter (names_of self.now) number) }
    {
        self.name(number as usize).map(|name| name.place)
    }

    // Whether the values of two names lie in one PLACE, or neither name is declared.
    pub fn lie_together(&self, first: u8, second: u8) -> bool
        ensures { result ≡ (place_letter (names_of self.now) first == place_letter (names_of self.now) second) }
    {
        self.place_of(first) == self.place_of(second)
    }

    // The number of the start name; none where there is no name.
    pub fn start_number(&self) -> Option<usize>
        ensures { result ≡ start_of self.now }
    {
        (!self.names.is_empty()).then_some(self.start)
    }

    // The rule of a number, from 1.
    pub fn rule(&self, number: usize) -> Option<Rule>
        ensures { MatchOption result ((number ≡ 0) ⊎ (length (rules_of self.now) < number)) (λ q. (0 < number) × ItemAt (rules_of self.now) (number - 1) q) }
    {
        let index = number.checked_sub(1)?;
        self.rules.as_slice().get(index).copied()
    }
}
