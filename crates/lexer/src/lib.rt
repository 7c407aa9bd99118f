// The tokens of a text, read one by one from the lent bytes.
#![tactic(auto)]

ghost use Rattle.std.specs.Prelude.{◌≡◌, ◌≤◌, length};
ghost use Rattle.lexer.specs.Tokens.{lexical_place};

pub mod laws;
mod reading;
mod runs;
#[cfg(test)]
mod tests;

// What a token is; its text stays where it stands.
#[derive(Clone, Copy, Debug, PartialEq, Eq)]
pub enum Token {
    LineEnd,
    Number(u32),
    // A number above 4294967295.
    HugeNumber,
    Name,
    Capitals,
    // `%` and the lower-case letters and digits after it.
    Percent,
    // `..`
    Dots,
    Colon,
    Open,
    Close,
    Comma,
    Equals,
    Minus,
    // The end of the text.
    End,
}

// Why there is no token; holds the byte's offset.
#[derive(Clone, Copy, Debug, PartialEq, Eq)]
pub enum LexicalFault {
    // A byte that starts no token.
    StrayByte(usize),
    // A name over 8 long.
    LongName(usize),
}

impl LexicalFault {
    pub fn place(self) -> usize
        ensures { result ≡ lexical_place self }
    {
        match self {
            LexicalFault::StrayByte(place) | LexicalFault::LongName(place) => place,
        }
    }
}

// A text and how far it has been read.
#[derive(Clone, Copy)]
pub struct Lexer<'a> {
    pub text: &'a [u8],
    pub offset: usize,
    ghost within: { offset ≤ length text.now },
}
