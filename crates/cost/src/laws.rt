// What is true of the definitions, for whoever reads the contracts.
ghost use Rattle.cost.specs.Halves.{HalvesAloneFail};

// Stopping each half of a size alone would not do: adding the same to both sides could turn the order round.
pub fn halves_alone_fail()
    ensures { HalvesAloneFail }
{}
