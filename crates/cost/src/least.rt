// The least of a row of costs.
ghost use Rattle.std.specs.Prelude.{◌≡◌, MatchOption};
ghost use Rattle.cost.specs.Least.{AllAbsent, FirstLeast, lowered};

use crate::Cost;

// The least so far with its index, after entry `i`.
fn lower<C: Cost>(found: Option<(usize, C)>, i: usize, entry: Option<C>) -> Option<(usize, C)>
    ensures { result ≡ lowered C.Cost.kind found i entry }
{
    match (found, entry) {
        (_, None) => found,
        (Some((_, least)), Some(cost)) if least.at_most(cost) => found,
        (_, Some(cost)) => Some((i, cost)),
    }
}

// The index of the first least entry; none where every entry is absent.
pub fn least<C: Cost>(row: &[Option<C>]) -> Option<usize>
    ensures { MatchOption result (AllAbsent row.now) (λ i. FirstLeast C.Cost.kind row.now i) }
{
    row.iter()
        .enumerate()
        .fold(None, |found, (i, entry)| lower(found, i, *entry))
        .map(|(i, _)| i)
}
