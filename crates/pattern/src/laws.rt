// What is true of the definitions, for whoever reads the contracts.
ghost use Rattle.std.specs.Prelude.{◌≡◌, Decides};
ghost use Rattle.pattern.specs.Letters.{letters_of};
ghost use Rattle.pattern.specs.Patterns.{items_of};
ghost use Rattle.pattern.specs.Shapes.{OneShapeAtMost, WholeIsShape};

use crate::intervals::Interval;
use crate::items::Item;
use crate::names::ShortName;
use crate::patterns::Pattern;

// A list of items is the reading of at most one shape.
pub fn one_shape_at_most()
    ensures { OneShapeAtMost }
{}

// The items of every pattern are the reading of a shape, and only whole lists of items are.
pub fn whole_is_shape()
    ensures { WholeIsShape }
{}

// A comparison tells ranges and items apart, names by their letters and patterns by their items.
pub fn comparisons_decide()
    ensures ranges { (a : Interval) (b : Interval) → Decides (⟦<Interval as PartialEq>⟧.eq a b) (a ≡ b) }
    ensures items { (a : Item) (b : Item) → Decides (⟦<Item as PartialEq>⟧.eq a b) (a ≡ b) }
    ensures names { (a : ShortName) (b : ShortName) → Decides (⟦<ShortName as PartialEq>⟧.eq a b) (letters_of a ≡ letters_of b) }
    ensures patterns { (a : Pattern) (b : Pattern) → Decides (⟦<Pattern as PartialEq>⟧.eq a b) (items_of a ≡ items_of b) }
{}
