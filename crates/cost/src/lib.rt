// Cost kinds: what a cover costs.
#![tactic(auto)]

ghost use Rattle.std.specs.Prelude.{◌≡◌};
ghost use Rattle.cost.specs.Kinds.{Kind, Lawful};

use pattern::figures::Figures;

pub mod amounts;
pub mod kinds;
pub mod laws;
pub mod least;
pub mod shown;

// What a selector asks of a cost.
pub trait Cost: Copy {
    ghost kind: { Kind Self };

    // What each kind must prove.
    ghost lawful: { Lawful kind };

    // The cost of nothing.
    fn nothing() -> Self
        ensures { result ≡ kind.no_cost };

    fn of_rule(figures: Figures) -> Self
        ensures { result ≡ kind.rule_cost figures };

    fn plus(self, other: Self) -> Self
        ensures { result ≡ kind.sum_of self other };

    fn at_most(self, other: Self) -> bool
        ensures { result ≡ kind.at_most self other };
}

#[cfg(test)]
mod tests;
