// What is true of every description, for whoever reads the contracts.
ghost use Rattle.description.specs.Laws.{AllKeep};

// Names are declared once, left names, operands and the start are declared, and a rename is a chain rule between names of
// equal PLACE. (That ranges are ordered and patterns whole is so of every range and pattern.)
pub fn descriptions_keep()
    ensures { AllKeep }
{}
