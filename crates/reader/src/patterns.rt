// The pattern of a rule.
ghost use Rattle.std.specs.Prelude.{◌≡◌, ◌<◌, ◌∷◌, length, drop, Some};
ghost use Rattle.pattern.specs.Letters.{letters_of};
ghost use Rattle.description.specs.Outlines.{part_of};
ghost use Rattle.reader.specs.Words.{declared_from, operator_called};
ghost use Rattle.reader.specs.Reading.{left_colon, first_item, item, opening, after_item, after_constant, low_end, two_dots, high_end, operand_item, capital_item, item_done};
ghost use Rattle.reader.specs.Sketches.{bracket_of, brackets_of, items_taken};
ghost use Rattle.reader.specs.States.{draft_of, declarations_of, stands, stepped, outcome_of, part_for, EndsInConstant};

use crate::faults::ReadFault;
use crate::lexemes::Lexeme;
use crate::progress::{Expect, LowEnd, Progress};
use crate::sketches::{Head, Opened, Sketch};
use lexer::Token;
use operators::Operator;
use pattern::intervals::Interval;
use pattern::items::Item;
use pattern::names::ShortName;
use std::str::from_utf8;

fn operator_called(letters: &[u8]) -> Option<Operator>
    ensures { result ≡ operator_called letters.now }
{
    from_utf8(letters).ok()?.parse().ok()
}

// The item of an operator; a constant's range is full until it is told.
fn item_of(operator: Operator) -> Item
    ensures { part_of result ≡ part_for operator }
{
    match operator {
        Operator::Cnst => {
            let Some(full) = Interval::new(0, u32::MAX) else {
                unreachable()
            };
            Item::Constant(full)
        }
        Operator::Var => Item::Variable,
        Operator::One(operator) => Item::Unary(operator),
        Operator::Two(operator) => Item::Binary(operator),
    }
}

impl Progress {
    pub(crate) fn left_colon(
        &self,
        draft: Sketch,
        word: &Lexeme,
    ) -> Result<Option<Expect>, ReadFault>
        ensures { outcome_of self.now result ≡ stepped self.now (left_colon (draft_of draft)) word.now }
    {
        if !word.is(Token::Colon) {
            return Err(ReadFault::Unexpected(word.place));
        }
        Ok(Some(Expect::NextPart(draft)))
    }

    // Right after a bracket.
    pub(crate) fn first_part(
        &self,
        draft: Sketch,
        word: &Lexeme,
    ) -> Result<Option<Expect>, ReadFault>
        ensures { outcome_of self.now result ≡ stepped self.now (first_item (draft_of draft)) word.now }
    {
        if !word.is(Token::Close) {
            return self.next_part(draft, word);
        }
        match draft.innermost() {
            Some(bracket) => Err(ReadFault::WrongParts(bracket.head.place)),
            None => Err(ReadFault::Unexpected(word.place)),
        }
    }

    pub(crate) fn next_part(
        &self,
        draft: Sketch,
        word: &Lexeme,
    ) -> Result<Option<Expect>, ReadFault>
        ensures { outcome_of self.now result ≡ stepped self.now (item (draft_of draft)) word.now }
    {
        if let Some(name) = word.name() {
            return self.operand(draft, &name, word.place);
        }
        if !word.is(Token::Capitals) {
            return Err(ReadFault::Unexpected(word.place));
        }
        let operator = operator_called(word.text).ok_or(ReadFault::Unknown(word.place))?;
        self.operator(draft, operator, word.place)
    }

    // An operand whose name stands at `place`.
    fn operand(
        &self,
        draft: Sketch,
        name: &ShortName,
        place: usize,
    ) -> Result<Option<Expect>, ReadFault>
        ensures { outcome_of self.now result ≡ operand_item (stands self.now (item (draft_of draft))) (draft_of draft) place (declared_from 0 (letters_of name.now) (declarations_of self.now)) }
    {
        let Some(number) = self.number_of(name) else {
            return Err(ReadFault::Unknown(place));
        };
        let longer = draft
            .gain(Item::Operand(number))
            .ok_or(ReadFault::TooMany(self.line_start))?;
        Ok(Some(Expect::AfterPart(longer.part_read())))
    }

    // A leaf, or an operator at `place` whose bracket must follow.
    fn operator(
        &self,
        draft: Sketch,
        operator: Operator,
        place: usize,
    ) -> Result<Option<Expect>, ReadFault>
        ensures { outcome_of self.now result ≡ capital_item (stands self.now (item (draft_of draft))) (draft_of draft) place (Some operator) }
    {
        let Some(longer) = draft.gain(item_of(operator)) else {
            return Err(ReadFault::TooMany(self.line_start));
        };
        match operator {
            Operator::Cnst => Ok(Some(Expect::AfterConstant(longer.part_read()))),
            Operator::Var => Ok(Some(Expect::AfterPart(longer.part_read()))),
            Operator::One(_) => Ok(Some(Expect::Opening(Head { arity: 1, place }, longer))),
            Operator::Two(_) => Ok(Some(Expect::Opening(Head { arity: 2, place }, longer))),
        }
    }

    // The bracket of that operator.
    // The `requires` is a clause and no ghost field: it holds only while the operator, whose parts are to come, stands last.
    pub(crate) fn opening(
        &self,
        head: Head,
        draft: Sketch,
        word: &Lexeme,
    ) -> Result<Option<Expect>, ReadFault>
        requires { items_taken (brackets_of draft.opened) < length draft.items }
        ensures { outcome_of self.now result ≡ stepped self.now (opening head.arity head.place (draft_of draft)) word.now }
    {
        if !word.is(Token::Open) {
            return Err(ReadFault::Unexpected(word.place));
        }
        Ok(Some(Expect::FirstPart(draft.open(head))))
    }

    pub(crate) fn after_part(
        &self,
        draft: Sketch,
        word: &Lexeme,
    ) -> Result<Option<Expect>, ReadFault>
        ensures { outcome_of self.now result ≡ stepped self.now (after_item (draft_of draft)) word.now }
    {
        if let Some(bracket) = draft.innermost() {
            return self.in_bracket(draft, bracket, word);
        }
        if !word.is(Token::Equals) {
            return Err(ReadFault::Unexpected(word.place));
        }
        Ok(Some(Expect::Mnemonic(draft)))
    }

    // After a part of the innermost bracket.
    fn in_bracket(
        &self,
        draft: Sketch,
        bracket: Opened,
        word: &Lexeme,
    ) -> Result<Option<Expect>, ReadFault>
        ensures { outcome_of self.now result ≡ item_done (stands self.now (after_item (draft_of draft))) (draft_of draft) (bracket_of bracket ∷ drop 1 (draft_of draft).brackets) word.now.token word.now.place }
    {
        if word.is(Token::Comma) {
            if bracket.done != 1 {
                return Err(ReadFault::Unexpected(word.place));
            }
            return Ok(Some(Expect::NextPart(draft)));
        }
        if !word.is(Token::Close) {
            return Err(ReadFault::Unexpected(word.place));
        }
        if bracket.done != bracket.head.arity {
            return Err(ReadFault::WrongParts(bracket.head.place));
        }
        Ok(Some(Expect::AfterPart(draft.close())))
    }

    pub(crate) fn after_constant(
        &self,
        draft: Sketch,
        word: &Lexeme,
    ) -> Result<Option<Expect>, ReadFault>
        ensures { outcome_of self.now result ≡ stepped self.now (after_constant (draft_of draft)) word.now }
    {
        if word.is(Token::Colon) {
            return Ok(Some(Expect::LowEnd(draft)));
        }
        self.after_part(draft, word)
    }

    pub(crate) fn low_end(&self, draft: Sketch, word: &Lexeme) -> Result<Option<Expect>, ReadFault>
        ensures { outcome_of self.now result ≡ stepped self.now (low_end (draft_of draft)) word.now }
    {
        let low = LowEnd {
            value: word.number_upto(u32::MAX)?,
            place: word.place,
        };
        Ok(Some(Expect::TwoDots(low, draft)))
    }

    pub(crate) fn two_dots(
        &self,
        low: LowEnd,
        draft: Sketch,
        word: &Lexeme,
    ) -> Result<Option<Expect>, ReadFault>
        ensures { outcome_of self.now result ≡ stepped self.now (two_dots low.value low.place (draft_of draft)) word.now }
    {
        if !word.is(Token::Dots) {
            return Err(ReadFault::Unexpected(word.place));
        }
        Ok(Some(Expect::HighEnd(low, draft)))
    }

    pub(crate) fn high_end(
        &self,
        low: LowEnd,
        draft: Sketch,
        word: &Lexeme,
    ) -> Result<Option<Expect>, ReadFault>
        requires { EndsInConstant (draft_of draft).so_far }
        ensures { outcome_of self.now result ≡ stepped self.now (high_end low.value low.place (draft_of draft)) word.now }
    {
        let high = word.number_upto(u32::MAX)?;
        let Some(interval) = Interval::new(low.value, high) else {
            return Err(ReadFault::OverLimit(low.place));
        };
        Ok(Some(Expect::AfterPart(draft.ranged(interval))))
    }
}
