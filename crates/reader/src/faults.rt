// Why a text is no description.
ghost use Rattle.std.specs.Prelude.{◌≡◌};
ghost use Rattle.reader.specs.declared.faults.ReadFault.TheVariants.{Lexical};
ghost use Rattle.reader.specs.Faults.{fault_number, fault_place};

use fault::Fault;
use lexer::LexicalFault;

// What is wrong, and the offset of the byte at which it is told.
#[derive(Clone, Copy, Debug, PartialEq)]
pub enum ReadFault {
    // The text does not begin with the mark.
    NoMark,
    // The version is not 1; holds the number's place.
    Version(usize),
    // No token stands there.
    Lexical(LexicalFault),
    // A token that cannot follow, or the text's end.
    Unexpected(usize),
    // An unknown name or operator.
    Unknown(usize),
    // An operator with the wrong count of parts; holds the operator's place.
    WrongParts(usize),
    // A number over its limit, or the low end of a range that is above its high end.
    OverLimit(usize),
    // One name too many, at the name; or one rule, item, operand or leaf too many, at the rule's line.
    TooMany(usize),
    // A name declared twice.
    Repeated(usize),
    // `-` where the rule is no rename.
    NotRename(usize),
}

impl From<LexicalFault> for ReadFault {
    ghost from_gives = { λ f r. r ≡ Lexical f };

    fn from(fault: LexicalFault) -> ReadFault {
        ReadFault::Lexical(fault)
    }
}

impl Fault for ReadFault {
    ghost number_of = { fault_number };

    ghost place_of = { fault_place };

    fn number(self) -> u32 {
        match self {
            ReadFault::NoMark => 1,
            ReadFault::Version(_) => 2,
            ReadFault::Lexical(_) | ReadFault::Unexpected(_) => 3,
            ReadFault::Unknown(_) => 4,
            ReadFault::WrongParts(_) => 5,
            ReadFault::OverLimit(_) => 6,
            ReadFault::TooMany(_) => 7,
            ReadFault::Repeated(_) | ReadFault::NotRename(_) => 8,
        }
    }

    fn place(self) -> usize {
        match self {
            ReadFault::NoMark => 0,
            ReadFault::Lexical(fault) => fault.place(),
            ReadFault::Version(place)
            | ReadFault::Unexpected(place)
            | ReadFault::Unknown(place)
            | ReadFault::WrongParts(place)
            | ReadFault::OverLimit(place)
            | ReadFault::TooMany(place)
            | ReadFault::Repeated(place)
            | ReadFault::NotRename(place) => place,
        }
    }
}
