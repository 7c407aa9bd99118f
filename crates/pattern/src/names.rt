// Short names.
ghost use Rattle.std.specs.Prelude.{◌≡◌, true};
ghost use Rattle.pattern.specs.Names.{short_name};

use rows::Row;

mod calls;

// A name has at most so many letters and digits.
pub const NAME_LIMIT: usize = 8;

// 1 to 8 lower-case letters or digits, a letter first.
#[derive(Clone, Copy, PartialEq, Eq)]
pub struct ShortName {
    pub letters: Row<u8, NAME_LIMIT>,
    ghost formed: { short_name letters ≡ true },
}

// A text that is no short name.
#[derive(Clone, Copy, Debug, PartialEq, Eq)]
pub struct MalformedName;
