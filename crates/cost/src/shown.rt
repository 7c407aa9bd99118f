// How costs are written.
ghost use Rattle.std.specs.Prelude.{◌++◌, Some, codes, decimal};

use crate::kinds::{Cycles, Longest, Size};
use std::fmt;

impl fmt::Display for Cycles {
    ghost output = { λ c. Some (decimal c.amount) };

    fn fmt<W: fmt::Write>(&self, f: &mut fmt::Formatter<W>) -> fmt::Result {
        write!(f, "{}", self.amount)
    }
}

// Bytes and cycles, as `12/34`.
impl fmt::Display for Size {
    ghost output = { λ c. Some (decimal c.bytes ++ (codes "/" ++ decimal c.amount)) };

    fn fmt<W: fmt::Write>(&self, f: &mut fmt::Formatter<W>) -> fmt::Result {
        write!(f, "{}/{}", self.bytes, self.amount)
    }
}

impl fmt::Display for Longest {
    ghost output = { λ c. Some (decimal c.amount) };

    fn fmt<W: fmt::Write>(&self, f: &mut fmt::Formatter<W>) -> fmt::Result {
        write!(f, "{}", self.amount)
    }
}
