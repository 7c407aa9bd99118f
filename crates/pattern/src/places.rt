// Where a value lies: one capital letter.
ghost use Rattle.std.specs.Prelude.{◌≡◌, ◌≤◌, MatchResult};

#[derive(Clone, Copy, Debug, PartialEq, Eq)]
pub struct Place {
    pub letter: u8,
    ghost from: { 65 ≤ letter },
    ghost to: { letter ≤ 90 },
}

// A byte that is no capital letter.
#[derive(Clone, Copy, Debug, PartialEq, Eq)]
pub struct NotCapital;

// The place of a capital letter, by its ASCII code.
impl TryFrom<u8> for Place {
    type Error = NotCapital;

    ghost try_from_gives = { λ byte r. MatchResult r (λ p. p.letter ≡ byte) (λ _. (65 ≤ byte) × (byte ≤ 90) → ⊥) };

    fn try_from(byte: u8) -> Result<Place, NotCapital> {
        match byte {
            b'A'..=b'Z' => Ok(Place { letter: byte }),
            _ => Err(NotCapital),
        }
    }
}
