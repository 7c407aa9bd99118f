// What is true of the definitions, for whoever reads the contracts.
ghost use Rattle.reader.specs.Grammar.{AcceptsExactly, OneAtMost, PlacesWithin};

// The text that is accepted as a description is that description by the grammar, and the other way round.
pub fn accepts_exactly()
    ensures { AcceptsExactly }
{}

// No text is two descriptions.
pub fn one_at_most()
    ensures { OneAtMost }
{}

// A refusal's place is within the text, or its end.
pub fn places_within()
    ensures { PlacesWithin }
{}
