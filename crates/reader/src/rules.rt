// What follows a rule's pattern: what it emits, and its numbers.
ghost use Rattle.std.specs.Prelude.{◌≡◌, ◌≤◌, true};
ghost use Rattle.pattern.specs.Items.{pattern_items};
ghost use Rattle.description.specs.Outlines.{emitted, production_of};
ghost use Rattle.reader.specs.Reading.{renames, mnemonic_word, size_number, cycles_number};
ghost use Rattle.reader.specs.States.{draft_of, declarations_of, stands, stepped, outcome_of, production_from};
ghost use Rattle.reader.specs.Soundness.{Sound};

use crate::faults::ReadFault;
use crate::lexemes::Lexeme;
use crate::progress::{Expect, Progress};
use crate::sketches::Sketch;
use description::rules::Rule;
use lexer::Token;
use pattern::figures::{CYCLES_LIMIT, Figures, SIZE_LIMIT};
use pattern::items::Item;
use pattern::names::ShortName;
use pattern::patterns::Pattern;

// The rule that has been read.
fn rule_of(draft: Sketch, mnemonic: Option<ShortName>, size: u32, cycles: u32) -> Rule
    requires { (pattern_items draft.items ≡ true) × ((size ≤ 99) × (cycles ≤ 999)) }
    ensures { production_of result ≡ production_from (draft_of draft) (emitted mnemonic) size cycles }
{
    let Ok(pattern) = Pattern::try_from(draft.items.as_slice()) else {
        unreachable()
    };
    let Some(figures) = Figures::new(size, cycles) else {
        unreachable()
    };
    Rule {
        left: draft.left,
        pattern,
        mnemonic,
        figures,
    }
}

impl Progress {
    // Whether the pattern is one name of the same PLACE as the left name.
    fn renames(&self, draft: &Sketch) -> bool
        ensures { result ≡ renames (declarations_of self.now) (draft_of draft.now).left_name (draft_of draft.now).so_far }
    {
        match draft.items.as_slice() {
            [Item::Operand(from)] => self.description.lie_together(draft.left, *from),
            _ => false,
        }
    }

    pub(crate) fn mnemonic(&self, draft: Sketch, word: &Lexeme) -> Result<Option<Expect>, ReadFault>
        ensures { outcome_of self.now result ≡ stepped self.now (mnemonic_word (draft_of draft)) word.now }
    {
        if let Some(name) = word.name() {
            return Ok(Some(Expect::Size(Some(name), draft)));
        }
        if !word.is(Token::Minus) {
            return Err(ReadFault::Unexpected(word.place));
        }
        if !self.renames(&draft) {
            return Err(ReadFault::NotRename(word.place));
        }
        Ok(Some(Expect::Size(None, draft)))
    }

    pub(crate) fn size(
        &self,
        mnemonic: Option<ShortName>,
        draft: Sketch,
        word: &Lexeme,
    ) -> Result<Option<Expect>, ReadFault>
        ensures { outcome_of self.now result ≡ stepped self.now (size_number (emitted mnemonic) (draft_of draft)) word.now }
    {
        let size = word.number_upto(SIZE_LIMIT)?;
        Ok(Some(Expect::Cycles(size, mnemonic, draft)))
    }

    pub(crate) fn cycles(
        &mut self,
        size: u32,
        mnemonic: Option<ShortName>,
        draft: Sketch,
        word: &Lexeme,
    ) -> Result<Option<Expect>, ReadFault>
        requires { Sound (stands self.old (cycles_number size (emitted mnemonic) (draft_of draft))) }
        ensures { outcome_of self.new result ≡ stepped self.old (cycles_number size (emitted mnemonic) (draft_of draft)) word.now }
    {
        let cycles = word.number_upto(CYCLES_LIMIT)?;
        let rule = rule_of(draft, mnemonic, size, cycles);
        let Ok(()) = self.description.add_rule(rule) else {
            unreachable()
        };
        Ok(Some(Expect::RuleEnd))
    }
}
