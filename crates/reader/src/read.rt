// Reading a text.
ghost use Rattle.std.specs.Prelude.{◌≡◌, ◌<◌, ◌≤◌, length, Ok, Err, MatchResult};
ghost use Rattle.description.specs.Outlines.{outline_of};
ghost use Rattle.lexer.specs.Tokens.{token_at};
ghost use Rattle.reader.specs.Reading.{read_from, nothing_read, versioned, reading};
ghost use Rattle.reader.specs.Faults.{fault_number, fault_place};
ghost use Rattle.reader.specs.States.{answer_of};

use crate::faults::ReadFault;
use crate::lexemes::Lexeme;
use crate::progress::{Expect, Progress};
use description::descriptions::Description;
use lexer::{Lexer, Token};

// The description that the text is, which is then in `description`; refused, that is as before.
pub fn read(text: &[u8], description: &mut Description) -> Result<(), ReadFault>
    ensures { MatchResult result (λ _. reading text.now ≡ Ok (outline_of description.new)) (λ e. (reading text.now ≡ Err (fault_number e, fault_place e)) × (description.new ≡ description.old)) }
{
    *description = read_text(text)?;
    Ok(())
}

fn read_text(text: &[u8]) -> Result<Description, ReadFault>
    ensures { answer_of result ≡ reading text.now }
{
    match text {
        [b'B', b'T', b'G', b' ', b'0'..=b'9', ..] => read_version(text),
        [b'B', b'T', b'G', b' ', ..] => Err(ReadFault::Unexpected(4)),
        [b'B', b'T', b'G', ..] => Err(ReadFault::Unexpected(3)),
        _ => Err(ReadFault::NoMark),
    }
}

// From the version on. Three cases, which a chain of `map_err` and `and_then` would say no plainer.
fn read_version(text: &[u8]) -> Result<Description, ReadFault>
    requires { 4 ≤ length text.now }
    ensures { answer_of result ≡ versioned text.now (token_at text.now 4) }
{
    let mut lexer = Lexer::at(text, 4);
    match lexer.next() {
        Ok((Token::Number(1), _)) => read_lines(lexer),
        Ok(_) => Err(ReadFault::Version(4)),
        Err(_) => Err(ReadFault::Unexpected(4)),
    }
}

// From the end of the header on, token by token.
fn read_lines(start: Lexer) -> Result<Description, ReadFault>
    requires { 0 < start.offset }
    ensures { answer_of result ≡ read_from (length start.entry.text.now) start.entry.text.now start.entry.offset nothing_read }
{
    let mut lexer = start;
    let mut progress = Progress {
        description: Description::empty(),
        line_start: 0,
    };
    let mut expect = Expect::HeaderEnd;
    loop {
        let (token, (place, length)) = lexer.next()?;
        let text = &lexer.text[place..place + length];
        match progress.step(expect, &Lexeme { token, place, text })? {
            Some(next) => expect = next,
            None => return Ok(progress.description),
        }
    }
}
