// How a pattern is made.
ghost use Rattle.std.specs.Prelude.{◌≡◌, false, MatchResult};
ghost use Rattle.pattern.specs.Items.{pattern_items, whole_from};
ghost use Rattle.pattern.specs.Patterns.{items_of};

use super::counts::counts;
use super::{ITEM_LIMIT, LEAF_LIMIT, MalformedPattern, OPERAND_LIMIT, Pattern};
use crate::items::Item;
use rows::Row;

// Whether the items are one pattern and no more.
fn whole(items: &[Item]) -> bool
    ensures { result ≡ whole_from 1 items.now }
{
    let mut wanted = 1;
    for item in items {
        if wanted == 0 {
            return false;
        }
        wanted = wanted - 1 + item.arity();
    }
    wanted == 0
}

// The pattern of these items, if they are one pattern within the limits.
impl TryFrom<&[Item]> for Pattern {
    type Error = MalformedPattern;

    ghost try_from_gives = { λ items r. MatchResult r (λ p. items_of p ≡ items.now) (λ _. pattern_items items.now ≡ false) };

    fn try_from(items: &[Item]) -> Result<Pattern, MalformedPattern> {
        let (operands, leaves) = counts(items);
        if items.len() > ITEM_LIMIT
            || operands > OPERAND_LIMIT
            || leaves > LEAF_LIMIT
            || !whole(items)
        {
            return Err(MalformedPattern);
        }
        let Ok(items) = Row::try_from(items) else {
            unreachable()
        };
        Ok(Pattern {
            items,
            operands,
            leaves,
        })
    }
}

impl<const N: usize> TryFrom<[Item; N]> for Pattern {
    type Error = MalformedPattern;

    ghost try_from_gives = { λ items r. MatchResult r (λ p. items_of p ≡ items) (λ _. pattern_items items ≡ false) };

    fn try_from(items: [Item; N]) -> Result<Pattern, MalformedPattern> {
        Pattern::try_from(&items[..])
    }
}
