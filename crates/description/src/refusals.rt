// Why a description does not take a name, a start or a rule.

#[derive(Clone, Copy, Debug, PartialEq, Eq)]
pub enum NameRefusal {
    // There are 16 names already.
    TooMany,
    // A name of that text is declared already.
    Declared,
}

// No name has that number.
#[derive(Clone, Copy, Debug, PartialEq, Eq)]
pub struct Undeclared;

#[derive(Clone, Copy, Debug, PartialEq, Eq)]
pub enum RuleRefusal {
    // There are 128 rules already.
    TooMany,
    // The left name is not declared.
    LeftUndeclared,
    // A name in the pattern is not declared.
    OperandUndeclared,
    // It emits nothing, and is no chain rule between names of equal PLACE.
    NotRename,
}
