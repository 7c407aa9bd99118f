// What an instruction asks of the operands that wait and of its payloads.
ghost use Rattle.std.specs.Prelude.{◌≡◌, false, List, ◌∷◌, length, MatchOption};
ghost use Rattle.std.specs.Str.{bytes_eq};
ghost use Rattle.board.specs.Acts.{last_of};
ghost use Rattle.board.specs.Instructions.{operand_list, leaf_list, item_admits, instruction_operands, instruction_leaves};
ghost use Rattle.board.specs.Payloads.{admits_all};

use super::Instruction;
use pattern::items::Item;
use tree::nodes::LAST_VARIABLE;

// The letters after the item's own, where it is an operand; none where its letter is not the first.
fn past_operand<'a>(item: Item, letters: &'a [u8]) -> Option<&'a [u8]>
    ensures { MatchOption result ((xs : List Item) → bytes_eq letters.now (operand_list (item ∷ xs)) ≡ false) (λ rest. (xs : List Item) → bytes_eq letters.now (operand_list (item ∷ xs)) ≡ bytes_eq rest.now (operand_list xs)) }
{
    let Item::Operand(letter) = item else {
        return Some(letters);
    };
    match letters {
        [first, rest @ ..] if *first == letter => Some(rest),
        _ => None,
    }
}

// Whether the letters are those of the operands among the items. One `try_fold` for this and the payloads' walk below leaves goals that
// no lemma of the library closes.
fn letters_match(items: &[Item], letters: &[u8]) -> bool
    ensures { result ≡ bytes_eq letters.now (operand_list items.now) }
{
    let mut rest = letters;
    for item in items {
        let Some(after) = past_operand(*item, rest) else {
            return false;
        };
        rest = after;
    }
    rest.is_empty()
}

// Whether a leaf admits the payload; what is no leaf admits all.
fn leaf_admits(item: Item, payload: u32) -> bool
    ensures { result ≡ item_admits item payload }
{
    match item {
        Item::Constant(range) => range.admits(payload),
        Item::Variable => payload <= LAST_VARIABLE,
        Item::Operand(_) | Item::Unary(_) | Item::Binary(_) => true,
    }
}

// The payloads after the item's own, where it is a leaf; none where it has none or does not admit it.
fn past_leaf<'a>(item: Item, payloads: &'a [u32]) -> Option<&'a [u32]>
    ensures { MatchOption result ((xs : List Item) → admits_all (leaf_list (item ∷ xs)) payloads.now ≡ false) (λ rest. (xs : List Item) → admits_all (leaf_list (item ∷ xs)) payloads.now ≡ admits_all (leaf_list xs) rest.now) }
{
    if item.leaves() == 0 {
        return Some(payloads);
    }
    match payloads {
        [first, rest @ ..] if leaf_admits(item, *first) => Some(rest),
        _ => None,
    }
}

// Whether each leaf among the items admits its payload.
fn payloads_admitted(items: &[Item], payloads: &[u32]) -> bool
    ensures { result ≡ admits_all (leaf_list items.now) payloads.now }
{
    let mut rest = payloads;
    for item in items {
        let Some(after) = past_leaf(*item, rest) else {
            return false;
        };
        rest = after;
    }
    true
}

impl Instruction {
    // Whether the last operands that wait are the meaning's, each in its PLACE.
    pub fn operands_wait(&self, waiting: &[u8]) -> bool
        ensures { result ≡ bytes_eq (last_of (length (instruction_operands self.now)) waiting.now) (instruction_operands self.now) }
    {
        let from = waiting.len().saturating_sub(self.meaning.operands);
        letters_match(self.meaning.items.as_slice(), &waiting[from..])
    }

    // Whether each leaf of the meaning admits its payload, from the left; payloads past the leaves are spare.
    pub fn admits(&self, payloads: &[u32]) -> bool
        ensures { result ≡ admits_all (instruction_leaves self.now) payloads.now }
    {
        payloads_admitted(self.meaning.items.as_slice(), payloads)
    }
}
