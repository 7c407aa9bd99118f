// Tokens with where they stand and their bytes.
ghost use Rattle.std.specs.Prelude.{◌≡◌, ◌+◌, ◌^◌, ◌<◌, true, length};
ghost use Rattle.reader.specs.Lexemes.{well_spelled};

use lexer::Token;

mod calls;

#[derive(Clone, Copy)]
pub struct Lexeme<'a> {
    pub token: Token,
    pub place: usize,
    pub text: &'a [u8],
    ghost spelled: { well_spelled token text.now ≡ true },
    ghost inside: { place + length text.now < 2 ^ 64 },
}
