// What is true of the definitions, for whoever reads the contracts.
ghost use Rattle.lexer.specs.Meanings.{ReadsWhatStands, FaultsWhereNoneStands, FoundAgain};
ghost use Rattle.lexer.specs.Tilings.{TokensTile};

// The token that is read is the one that stands there: spaces before it, and as long as can be.
pub fn reads_what_stands()
    ensures { ReadsWhatStands }
{}

// A fault is told exactly where no token stands.
pub fn faults_where_none_stands()
    ensures { FaultsWhereNoneStands }
{}

// A token is found again from its own place.
pub fn found_again()
    ensures { FoundAgain }
{}

// The tokens of a text cover it with nothing but spaces between them.
pub fn tokens_tile()
    ensures { TokensTile }
{}
