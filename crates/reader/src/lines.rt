// The lines but for the rules' parts: what follows the header, declarations, the start, and how a rule begins.
ghost use Rattle.std.specs.Prelude.{◌≡◌, ◌<◌, length, IfSome, nat_le};
ghost use Rattle.pattern.specs.Letters.{letters_of};
ghost use Rattle.reader.specs.Words.{declared_from};
ghost use Rattle.reader.specs.Reading.{header_end, directive, new_name, name_place, start_name, start_end, rule_or_end, left_found};
ghost use Rattle.reader.specs.States.{declarations_of, productions_of, stands, stepped, outcome_of};
ghost use Rattle.reader.specs.Soundness.{Sound};

use crate::faults::ReadFault;
use crate::lexemes::Lexeme;
use crate::progress::{Expect, Progress};
use crate::sketches::Sketch;
use description::descriptions::{NAME_LIMIT, RULE_LIMIT};
use description::rules::Nonterminal;
use lexer::Token;
use pattern::names::ShortName;
use pattern::places::Place;

impl Progress {
    // The number of the name, if it is declared.
    pub(crate) fn number_of(&self, name: &ShortName) -> Option<u8>
        ensures number { result ≡ declared_from 0 (letters_of name.now) (declarations_of self.now) }
        ensures below { IfSome result (λ i. i < length (declarations_of self.now)) }
    {
        let number = self.description.number_of(name)?;
        u8::try_from(number).ok()
    }

    fn names_full(&self) -> bool
        ensures { result ≡ nat_le 16 (length (declarations_of self.now)) }
    {
        self.description.names.len() >= NAME_LIMIT
    }

    fn rules_full(&self) -> bool
        ensures { result ≡ nat_le 128 (length (productions_of self.now)) }
    {
        self.description.rules.len() >= RULE_LIMIT
    }

    // After the header or a declaration.
    pub(crate) fn to_directive(&mut self, word: &Lexeme) -> Result<Option<Expect>, ReadFault>
        ensures { outcome_of self.new result ≡ stepped self.old header_end word.now }
    {
        if !word.is(Token::LineEnd) {
            return Err(ReadFault::Unexpected(word.place));
        }
        self.line_start = word.place + 1;
        Ok(Some(Expect::Directive))
    }

    // `%nt` or, after a declaration, `%start`.
    pub(crate) fn directive(&self, word: &Lexeme) -> Result<Option<Expect>, ReadFault>
        ensures { outcome_of self.now result ≡ stepped self.now directive word.now }
    {
        if !word.is(Token::Percent) {
            return Err(ReadFault::Unexpected(word.place));
        }
        if word.spells(b"%nt") {
            return Ok(Some(Expect::NewName));
        }
        if word.spells(b"%start") && self.description.names.len() > 0 {
            return Ok(Some(Expect::StartName));
        }
        Err(ReadFault::Unexpected(word.place))
    }

    pub(crate) fn new_name(&self, word: &Lexeme) -> Result<Option<Expect>, ReadFault>
        ensures { outcome_of self.now result ≡ stepped self.now new_name word.now }
    {
        let Some(name) = word.name() else {
            return Err(ReadFault::Unexpected(word.place));
        };
        if self.names_full() {
            return Err(ReadFault::TooMany(word.place));
        }
        if self.number_of(&name).is_some() {
            return Err(ReadFault::Repeated(word.place));
        }
        Ok(Some(Expect::NamePlace(name)))
    }

    pub(crate) fn name_place(
        &mut self,
        name: ShortName,
        word: &Lexeme,
    ) -> Result<Option<Expect>, ReadFault>
        requires { Sound (stands self.old (name_place (letters_of name))) }
        ensures { outcome_of self.new result ≡ stepped self.old (name_place (letters_of name)) word.now }
    {
        if !word.is(Token::Capitals) {
            return Err(ReadFault::Unexpected(word.place));
        }
        let [letter] = word.text else {
            return Err(ReadFault::Unexpected(word.place));
        };
        let Ok(place) = Place::try_from(*letter) else {
            unreachable()
        };
        let Ok(()) = self.description.add_name(Nonterminal { name, place }) else {
            unreachable()
        };
        Ok(Some(Expect::DeclarationEnd))
    }

    pub(crate) fn start_name(&mut self, word: &Lexeme) -> Result<Option<Expect>, ReadFault>
        ensures { outcome_of self.new result ≡ stepped self.old start_name word.now }
    {
        let Some(name) = word.name() else {
            return Err(ReadFault::Unexpected(word.place));
        };
        let Some(number) = self.number_of(&name) else {
            return Err(ReadFault::Unknown(word.place));
        };
        let Ok(()) = self.description.set_start(number as usize) else {
            unreachable()
        };
        Ok(Some(Expect::StartEnd))
    }

    // After the start or a rule.
    pub(crate) fn to_rule(&mut self, word: &Lexeme) -> Result<Option<Expect>, ReadFault>
        ensures { outcome_of self.new result ≡ stepped self.old start_end word.now }
    {
        if word.is(Token::End) {
            return Ok(None);
        }
        if !word.is(Token::LineEnd) {
            return Err(ReadFault::Unexpected(word.place));
        }
        self.line_start = word.place + 1;
        Ok(Some(Expect::RuleOrEnd))
    }

    pub(crate) fn rule_or_end(&self, word: &Lexeme) -> Result<Option<Expect>, ReadFault>
        ensures { outcome_of self.now result ≡ stepped self.now rule_or_end word.now }
    {
        if let Some(name) = word.name() {
            return self.left_name(&name, word.place);
        }
        if word.is(Token::End) {
            return Ok(None);
        }
        Err(ReadFault::Unexpected(word.place))
    }

    // A rule whose left name stands at `place`.
    fn left_name(&self, name: &ShortName, place: usize) -> Result<Option<Expect>, ReadFault>
        ensures { outcome_of self.now result ≡ left_found (stands self.now rule_or_end) place (declared_from 0 (letters_of name.now) (declarations_of self.now)) }
    {
        let Some(left) = self.number_of(name) else {
            return Err(ReadFault::Unknown(place));
        };
        if self.rules_full() {
            return Err(ReadFault::TooMany(self.line_start));
        }
        Ok(Some(Expect::LeftColon(Sketch::new(left))))
    }
}
