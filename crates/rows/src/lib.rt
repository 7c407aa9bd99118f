// Rows: short lists that are kept in an array and are plain values.
#![tactic(auto)]

ghost use Rattle.std.specs.Prelude.{◌≡◌, ◌<◌, ◌≤◌, ◌↔◌, IsTrue, [], ◌∷◌, ◌++◌, length, take, MatchOption, MatchResult};
ghost use Rattle.std.specs.Cmp.Lexicographic.{pointwise};
ghost use Rattle.std.specs.Cmp.Rules.{comparing};
ghost use Rattle.std.proofs.Common.{rules};

use std::alloc::AllocError;
use std::marker::Model;

mod entries;

pub use entries::Entry;

// At most `N` entries, at the front of the array; the rest of it is blank, so that equal rows are equal values.
#[derive(Copy)]
pub struct Row<T: Entry, const N: usize> {
    entries: [T; N],
    len: usize,
}

impl<T: Entry, const N: usize> Model for Row<T, N> {
    ghost use Rattle.std.specs.Prelude.{List, ◌≡◌, ◌≤◌, ◌-◌, ◌++◌, length, take, drop, replicate};

    ghost Value = { List T };

    ghost view = { λ r. take r.len r.entries };

    ghost use Rattle.rows.specs.Rows.{Kept, entries_again};

    ghost invariant = { Kept N T.blank };

    ghost inverse = { λ v. record { entries = v ++ replicate (N - length v) T.blank; len = length v } };

    ghost inverse_ok = { entries_again N T.blank };
}

// Not derived: what a derived clone says of its entries does not give the blanks back.
impl<T: Entry, const N: usize> Clone for Row<T, N> {
    ghost is_clone = { λ a b. b ≡ a };

    fn clone(&self) -> Result<Row<T, N>, AllocError> {
        Ok(*self)
    }
}

impl<T: Entry, const N: usize> Row<T, N> {
    pub fn new() -> Row<T, N>
        ensures { result ≡ [] }
    {
        Row {
            entries: [T::blank(); N],
            len: 0,
        }
    }

    pub fn len(&self) -> usize
        ensures value { result ≡ length self.now }
        ensures within { result ≤ N }
    {
        self.as_slice().len()
    }

    pub fn is_empty(&self) -> bool
        ensures { IsTrue result ↔ (self.now ≡ []) }
    {
        self.as_slice().is_empty()
    }

    pub fn as_slice(&self) -> &[T]
        ensures value { result.now ≡ self.now }
        ensures within { length self.now ≤ N }
    {
        let entries = &self.entries[..];
        &entries[0..self.len]
    }

    // One entry more at the end, or that entry back where the row is full.
    pub fn push(&mut self, entry: T) -> Result<(), T>
        ensures { MatchResult result (λ _. self.new ≡ self.old ++ entry ∷ []) (λ e. (e ≡ entry) × (length self.old ≡ N) × (self.new ≡ self.old)) }
    {
        if self.len == N {
            return Err(entry);
        }
        self.entries[self.len] = entry;
        self.len += 1;
        Ok(())
    }

    // Takes the last entry.
    pub fn pop(&mut self) -> Option<T>
        ensures { MatchOption result ((self.old ≡ []) × (self.new ≡ [])) (λ e. self.old ≡ self.new ++ e ∷ []) }
    {
        if self.len == 0 {
            return None;
        }
        self.len -= 1;
        let last = self.entries[self.len];
        self.entries[self.len] = T::blank();
        Some(last)
    }

    // Keeps so many entries at the front, or all where there are no more.
    pub fn truncate(&mut self, len: usize)
        ensures { self.new ≡ take len self.old }
    {
        while self.len() > len {
            let _ = self.pop();
        }
    }
}

// Not derived: the entries alone are compared.
impl<T: Entry + PartialEq, const N: usize> PartialEq for Row<T, N> {
    ghost eq = { pointwise T.eq };

    ghost laws = { Prim.search (comparing, rules) };

    fn eq(&self, other: &Row<T, N>) -> bool {
        self.as_slice() == other.as_slice()
    }
}

impl<T: Entry + Eq, const N: usize> Eq for Row<T, N> {
    ghost laws = { Prim.search (comparing, rules) };
}

// More entries than a row holds.
#[derive(Clone, Copy, Debug, PartialEq, Eq)]
pub struct TooLong;

impl<T: Entry, const N: usize> TryFrom<&[T]> for Row<T, N> {
    type Error = TooLong;

    ghost try_from_gives = { λ s r. MatchResult r (λ row. (row ≡ s.now) × (length s.now ≤ N)) (λ _. N < length s.now) };

    fn try_from(entries: &[T]) -> Result<Row<T, N>, TooLong> {
        let len = entries.len();
        if len > N {
            return Err(TooLong);
        }
        let mut all = [T::blank(); N];
        let places = &mut all[..];
        places[0..len].copy_from_slice(entries);
        Ok(Row { entries: all, len })
    }
}
