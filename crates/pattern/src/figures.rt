// The numbers of a rule.
ghost use Rattle.std.specs.Prelude.{◌≡◌, ◌≤◌, MatchOption};

pub const SIZE_LIMIT: u32 = 99;

pub const CYCLES_LIMIT: u32 = 999;

// What a rule takes: bytes, and cycles.
#[derive(Clone, Copy, Debug, PartialEq, Eq)]
pub struct Figures {
    pub size: u32,
    pub cycles: u32,
    ghost light: { size ≤ 99 },
    ghost quick: { cycles ≤ 999 },
}

impl Figures {
    // Made of two numbers, so no `TryFrom`.
    pub fn new(size: u32, cycles: u32) -> Option<Figures>
        ensures { MatchOption result ((size ≤ 99) × (cycles ≤ 999) → ⊥) (λ f. (f.size ≡ size) × (f.cycles ≡ cycles)) }
    {
        if size > SIZE_LIMIT || cycles > CYCLES_LIMIT {
            return None;
        }
        Some(Figures { size, cycles })
    }
}
