// Reading a text token by token.
ghost use Rattle.std.specs.Prelude.{◌≡◌, min, length, take};
ghost use Rattle.lexer.specs.Bytes.{base_ten, longest_run, is_digit, is_lower_or_digit};
ghost use Rattle.lexer.specs.Tokens.{token_of, token_at, offset_after, number_token, name_or_fault, dots_or_fault, mark_or_fault};

use crate::runs::{Class, number_value, run_length};
use crate::{Lexer, LexicalFault, Token};

// A name's limit, which pattern has too: this crate stands on no other.
const NAME_LIMIT: usize = 8;

impl<'a> Lexer<'a> {
    // At the text's start.
    pub fn new(text: &'a [u8]) -> Lexer<'a>
        ensures { (result.text ≡ text.entry) × (result.offset ≡ 0) }
    {
        Lexer { text, offset: 0 }
    }

    // At the offset, or at the text's end if that comes first.
    pub fn at(text: &'a [u8], offset: usize) -> Lexer<'a>
        ensures { (result.text ≡ text.entry) × (result.offset ≡ min offset (length text.now)) }
    {
        let offset = offset.min(text.len());
        Lexer { text, offset }
    }

    // The next token with its place and length; at a fault the offset stays.
    pub fn next(&mut self) -> Result<(Token, (usize, usize)), LexicalFault>
        ensures answer { result ≡ token_at self.old.text.now self.old.offset }
        ensures same_text { self.new.text ≡ self.old.text }
        ensures moved { self.new.offset ≡ offset_after result self.old.offset }
    {
        let place = self.offset + run_length(&self.text[self.offset..], Class::Space);
        let (token, length) = front(&self.text[place..], place)?;
        self.offset = place + length;
        Ok((token, (place, length)))
    }
}

// The token at the front of the bytes, which begin at `place` and with no space, and its length.
fn front(bytes: &[u8], place: usize) -> Result<(Token, usize), LexicalFault>
    ensures { result ≡ token_of place bytes.now }
{
    match bytes {
        [] => Ok((Token::End, 0)),
        [b'0'..=b'9', ..] => Ok(number(bytes)),
        [b'a'..=b'z', ..] => name(bytes, place),
        [b'A'..=b'Z', ..] => Ok((Token::Capitals, run_length(bytes, Class::Capital))),
        [b'%', after @ ..] => Ok((Token::Percent, 1 + run_length(after, Class::LowerOrDigit))),
        [b'.', after @ ..] => dots(after, place),
        [byte, ..] => mark(*byte, place),
    }
}

// Two full stops, where the first stands at `place`.
fn dots(after: &[u8], place: usize) -> Result<(Token, usize), LexicalFault>
    ensures { result ≡ dots_or_fault place after.now }
{
    match after {
        [b'.', ..] => Ok((Token::Dots, 2)),
        _ => Err(LexicalFault::StrayByte(place)),
    }
}

// A byte that is a token by itself.
fn mark(byte: u8, place: usize) -> Result<(Token, usize), LexicalFault>
    ensures { result ≡ mark_or_fault place byte }
{
    let token = match byte {
        b'\n' => Token::LineEnd,
        b':' => Token::Colon,
        b'(' => Token::Open,
        b')' => Token::Close,
        b',' => Token::Comma,
        b'=' => Token::Equals,
        b'-' => Token::Minus,
        _ => return Err(LexicalFault::StrayByte(place)),
    };
    Ok((token, 1))
}

// The name at the front, unless it is too long.
fn name(bytes: &[u8], place: usize) -> Result<(Token, usize), LexicalFault>
    ensures { result ≡ name_or_fault place (longest_run is_lower_or_digit bytes.now) }
{
    let length = run_length(bytes, Class::LowerOrDigit);
    if length > NAME_LIMIT {
        return Err(LexicalFault::LongName(place));
    }
    Ok((Token::Name, length))
}

// The digits at the front, as a number.
fn number(bytes: &[u8]) -> (Token, usize)
    ensures { (result.0 ≡ number_token (base_ten (take (longest_run is_digit bytes.now) bytes.now))) × (result.1 ≡ longest_run is_digit bytes.now) }
{
    let length = run_length(bytes, Class::Digit);
    let token = number_value(&bytes[..length]).map_or(Token::HugeNumber, Token::Number);
    (token, length)
}
