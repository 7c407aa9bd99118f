// How a short name is made.
ghost use Rattle.std.specs.Prelude.{◌≡◌, false, ◌||◌, MatchResult, Some};
ghost use Rattle.pattern.specs.Letters.{letters_of};
ghost use Rattle.pattern.specs.Names.{all_plain, is_digit, is_lower, short_name};

use super::{MalformedName, NAME_LIMIT, ShortName};
use rows::Row;
use std::fmt;
use std::str::from_utf8;

fn plain(byte: u8) -> bool
    ensures { result ≡ (is_lower byte || is_digit byte) }
{
    byte.is_ascii_lowercase() || byte.is_ascii_digit()
}

fn plain_text(text: &[u8]) -> bool
    ensures { result ≡ all_plain text.now }
{
    text.iter().all(|&byte| plain(byte))
}

fn formed(text: &[u8]) -> bool
    ensures { result ≡ short_name text.now }
{
    if text.is_empty() || text.len() > NAME_LIMIT {
        return false;
    }
    text[0].is_ascii_lowercase() && plain_text(text)
}

// The name that the text is, if it is well formed.
impl TryFrom<&[u8]> for ShortName {
    type Error = MalformedName;

    ghost try_from_gives = { λ text r. MatchResult r (λ n. letters_of n ≡ text.now) (λ _. short_name text.now ≡ false) };

    fn try_from(text: &[u8]) -> Result<ShortName, MalformedName> {
        if !formed(text) {
            return Err(MalformedName);
        }
        let Ok(letters) = Row::try_from(text) else {
            unreachable()
        };
        Ok(ShortName { letters })
    }
}

// The letters themselves.
impl fmt::Display for ShortName {
    ghost output = { λ n. Some (letters_of n) };

    fn fmt<W: fmt::Write>(&self, f: &mut fmt::Formatter<W>) -> fmt::Result {
        let Ok(text) = from_utf8(self.letters.as_slice()) else {
            unreachable()
        };
        f.write_str(text)
    }
}
