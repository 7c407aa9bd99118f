// What is true of the definitions, for whoever reads the contracts.
ghost use Rattle.operators.specs.Operators.{SignedReading, NumberedOnce};

// A word's signed reading is the word below 2^31, and 2^32 less from there on.
pub fn signed_reading()
    ensures { SignedReading }
{}

// Every number names at most one operator, and every operator has one number.
pub fn numbered_once()
    ensures { NumberedOnce }
{}
