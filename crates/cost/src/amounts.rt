// The three cost kinds, each by its own arithmetic.
ghost use Rattle.cost.specs.Amounts.{cycles_kind, size_kind, longest_kind};
ghost use Rattle.cost.specs.Laws.{cycles_lawful, size_lawful, longest_lawful};

use crate::Cost;
use crate::kinds::{Cycles, Longest, Size};
use pattern::figures::Figures;

impl Cost for Cycles {
    ghost kind = { cycles_kind };

    ghost lawful = { cycles_lawful };

    fn nothing() -> Cycles {
        Cycles { amount: 0 }
    }

    fn of_rule(figures: Figures) -> Cycles {
        Cycles {
            amount: figures.cycles,
        }
    }

    fn plus(self, other: Cycles) -> Cycles {
        Cycles {
            amount: self.amount.saturating_add(other.amount),
        }
    }

    fn at_most(self, other: Cycles) -> bool {
        self <= other
    }
}

impl Cost for Size {
    ghost kind = { size_kind };

    ghost lawful = { size_lawful };

    fn nothing() -> Size {
        Size {
            bytes: 0,
            amount: 0,
        }
    }

    fn of_rule(figures: Figures) -> Size {
        Size {
            bytes: figures.size,
            amount: figures.cycles,
        }
    }

    fn plus(self, other: Size) -> Size {
        match self.bytes.checked_add(other.bytes) {
            Some(bytes) => Size {
                bytes,
                amount: self.amount.saturating_add(other.amount),
            },
            // Both halves stop together, since one alone could turn the order round.
            None => Size {
                bytes: u32::MAX,
                amount: u32::MAX,
            },
        }
    }

    fn at_most(self, other: Size) -> bool {
        self <= other
    }
}

impl Cost for Longest {
    ghost kind = { longest_kind };

    ghost lawful = { longest_lawful };

    fn nothing() -> Longest {
        Longest { amount: 0 }
    }

    fn of_rule(figures: Figures) -> Longest {
        Longest {
            amount: figures.cycles,
        }
    }

    fn plus(self, other: Longest) -> Longest {
        self.max(other)
    }

    fn at_most(self, other: Longest) -> bool {
        self <= other
    }
}
