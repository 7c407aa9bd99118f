// How a pattern grows.
ghost use Rattle.std.specs.Prelude.{◌≡◌, ◌+◌, ◌<◌, true, false, [], ◌∷◌, ◌++◌, length, drop, IfSome, MatchOption};
ghost use Rattle.description.specs.Outlines.{part_of};
ghost use Rattle.reader.specs.Reading.{within_limits, gained, part_read, with_brackets, ranged};
ghost use Rattle.reader.specs.Sketches.{bracket_of, brackets_of, items_taken};
ghost use Rattle.reader.specs.States.{empty_draft, draft_of, opened_in, EndsInConstant};

use super::{Head, Opened, Sketch};
use pattern::intervals::Interval;
use pattern::items::Item;
use pattern::patterns::{ITEM_LIMIT, LEAF_LIMIT, OPERAND_LIMIT};
use rows::Row;

impl Sketch {
    // Nothing but the left name.
    pub(crate) fn new(left: u8) -> Sketch
        ensures { draft_of result ≡ empty_draft left }
    {
        Sketch {
            left,
            items: Row::new(),
            operands: 0,
            leaves: 0,
            opened: Row::new(),
        }
    }

    // With one item more, if the limits allow it.
    pub(crate) fn gain(mut self, item: Item) -> Option<Sketch>
        ensures limits { MatchOption result (within_limits ((draft_of self).so_far ++ part_of item ∷ []) ≡ false) (λ d. (within_limits ((draft_of self).so_far ++ part_of item ∷ []) ≡ true) × (draft_of d ≡ gained (draft_of self) (part_of item))) }
        ensures room { IfSome result (λ d. items_taken (brackets_of d.opened) < length d.items) }
    {
        let operands = self.operands + item.operands();
        let leaves = self.leaves + item.leaves();
        if self.items.len() == ITEM_LIMIT || operands > OPERAND_LIMIT || leaves > LEAF_LIMIT {
            return None;
        }
        let _ = self.items.push(item);
        self.operands = operands;
        self.leaves = leaves;
        Some(self)
    }

    // The innermost open bracket.
    pub(crate) fn innermost(&self) -> Option<Opened>
        ensures { MatchOption result ((draft_of self.now).brackets ≡ []) (λ b. (draft_of self.now).brackets ≡ bracket_of b ∷ drop 1 (draft_of self.now).brackets) }
    {
        self.opened.as_slice().last().copied()
    }

    // A part of the innermost bracket, or the pattern, is read.
    // The `requires` is a clause and no ghost field: it holds only while an item that no bracket counts yet stands last.
    pub(crate) fn part_read(mut self) -> Sketch
        requires { items_taken (brackets_of self.opened) < length self.items }
        ensures { draft_of result ≡ part_read (draft_of self) }
    {
        if let Some(mut bracket) = self.opened.pop() {
            bracket.done += 1;
            let _ = self.opened.push(bracket);
        }
        self
    }

    // With one bracket more, of that operator.
    // The `requires` is a clause and no ghost field, as that of `part_read`.
    pub(crate) fn open(mut self, head: Head) -> Sketch
        requires { items_taken (brackets_of self.opened) < length self.items }
        ensures { draft_of result ≡ opened_in (draft_of self) head.arity head.place }
    {
        let _ = self.opened.push(Opened { head, done: 0 });
        self
    }

    // Without the innermost bracket, which is read.
    pub(crate) fn close(mut self) -> Sketch
        ensures { draft_of result ≡ part_read (with_brackets (draft_of self) (drop 1 (draft_of self).brackets)) }
    {
        if self.opened.pop().is_none() {
            return self;
        }
        self.part_read()
    }

    // With the last item, a constant, of that range.
    pub(crate) fn ranged(mut self, interval: Interval) -> Sketch
        requires { EndsInConstant (draft_of self).so_far }
        ensures { draft_of result ≡ ranged (draft_of self) interval.low interval.high }
    {
        let _ = self.items.pop();
        let _ = self.items.push(Item::Constant(interval));
        self
    }
}
