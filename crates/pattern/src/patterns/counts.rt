// How many operands and leaves there are among items.
ghost use Rattle.std.specs.Prelude.{◌≡◌};
ghost use Rattle.pattern.specs.Items.{count_of_leaves, count_of_operands};

use crate::items::Item;

// How many operands there are, and how many leaves: two sums in one walk.
pub(crate) fn counts(items: &[Item]) -> (usize, usize)
    ensures { (result.0 ≡ count_of_operands items.now) × (result.1 ≡ count_of_leaves items.now) }
{
    let mut operands = 0;
    let mut leaves = 0;
    for item in items {
        operands += item.operands();
        leaves += item.leaves();
    }
    (operands, leaves)
}
