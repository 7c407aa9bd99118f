// Runs of bytes of one class, and the numbers that digits write.
ghost use Rattle.std.specs.Prelude.{◌≡◌, ℕ, ◌^◌, ◌<◌, ◌≤◌, true, length, slice_index};
ghost use Rattle.std.specs.Option.{SomeIff};
ghost use Rattle.lexer.specs.Bytes.{is_in, is_digit, longest_run, base_ten};

// What a run is made of. An enum and no closure, so that contracts name the class.
#[derive(Clone, Copy)]
pub(crate) enum Class {
    Space,
    Digit,
    Capital,
    LowerOrDigit,
}

impl Class {
    fn has(self, byte: u8) -> bool
        ensures { result ≡ is_in self byte }
    {
        match self {
            Class::Space => byte == b' ',
            Class::Digit => byte.is_ascii_digit(),
            Class::Capital => byte.is_ascii_uppercase(),
            Class::LowerOrDigit => byte.is_ascii_lowercase() || byte.is_ascii_digit(),
        }
    }
}

// How many bytes of the class stand at the front.
pub(crate) fn run_length(bytes: &[u8], class: Class) -> usize
    ensures longest { result ≡ longest_run (is_in class) bytes.now }
    ensures within { result ≤ length bytes.now }
{
    bytes.iter().take_while(|&&byte| class.has(byte)).count()
}

// The number that the digits write, if it is a word.
#[tactic(auto, using(crate::proofs::Digits::read_within))]
pub(crate) fn number_value(digits: &[u8]) -> Option<u32>
    requires { (k : ℕ) → k < length digits.now → is_digit (slice_index digits.now k) ≡ true }
    ensures { SomeIff result (base_ten digits.now < 2 ^ 32) (base_ten digits.now) }
{
    let mut value = 0u32;
    // Not `try_fold`: a closure would not know that each byte is a digit.
    for &digit in digits {
        value = value.checked_mul(10)?.checked_add(u32::from(digit - b'0'))?;
    }
    Some(value)
}
