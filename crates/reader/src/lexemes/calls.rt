// What is asked of a token.
ghost use Rattle.std.specs.Prelude.{◌≡◌, true, false, MatchOption};
ghost use Rattle.pattern.specs.Letters.{letters_of};
ghost use Rattle.lexer.specs.declared.Token.TheVariants.{Name};
ghost use Rattle.description.specs.Names.{same_text};
ghost use Rattle.reader.specs.States.{NumberRead};
ghost use Rattle.reader.specs.Words.{is};

use super::Lexeme;
use crate::faults::ReadFault;
use lexer::Token;
use pattern::names::ShortName;

impl Lexeme<'_> {
    // Whether it is of that kind; a number is a number, whatever its value.
    pub(crate) fn is(&self, kind: Token) -> bool
        ensures { result ≡ is kind self.now.token }
    {
        match (self.token, kind) {
            (Token::Number(_), Token::Number(_)) => true,
            (token, kind) => token == kind,
        }
    }

    // The name that the bytes are, if the token is a name.
    pub(crate) fn name(&self) -> Option<ShortName>
        ensures { MatchOption result (is Name self.now.token ≡ false) (λ n. (is Name self.now.token ≡ true) × (letters_of n ≡ self.now.text.now)) }
    {
        if !self.is(Token::Name) {
            return None;
        }
        ShortName::try_from(self.text).ok()
    }

    pub(crate) fn spells(&self, letters: &[u8]) -> bool
        ensures { result ≡ same_text self.now.text.now letters.now }
    {
        self.text == letters
    }

    // The number, if it is at most `limit`.
    pub(crate) fn number_upto(&self, limit: u32) -> Result<u32, ReadFault>
        ensures { NumberRead result limit self.now.token self.now.place }
    {
        match self.token {
            Token::Number(value) if value <= limit => Ok(value),
            Token::Number(_) | Token::HugeNumber => Err(ReadFault::OverLimit(self.place)),
            _ => Err(ReadFault::Unexpected(self.place)),
        }
    }
}
