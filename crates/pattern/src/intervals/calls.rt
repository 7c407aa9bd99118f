// What can be asked of a range.
ghost use Rattle.std.specs.Prelude.{◌≡◌, ◌<◌, Decides, MatchOption};
ghost use Rattle.pattern.specs.Ranges.{Admits, Within};

use super::Interval;

impl Interval {
    // The words from `low` to `high`, if these are in order. Made of two numbers, so no `TryFrom`.
    pub fn new(low: u32, high: u32) -> Option<Interval>
        ensures { MatchOption result (high < low) (λ i. (i.low ≡ low) × (i.high ≡ high)) }
    {
        if low > high {
            return None;
        }
        Some(Interval { low, high })
    }

    pub fn admits(&self, word: u32) -> bool
        ensures { Decides result (Admits self.now word) }
    {
        self.low <= word && word <= self.high
    }

    // Whether the other admits every word that this one admits.
    pub fn inside(&self, other: &Interval) -> bool
        ensures { Decides result (Within self.now other.now) }
    {
        other.low <= self.low && self.high <= other.high
    }
}
