// One token more.
ghost use Rattle.std.specs.Prelude.{◌≡◌};
ghost use Rattle.reader.specs.States.{awaits_of, stands, stepped, outcome_of};
ghost use Rattle.reader.specs.Soundness.{Sound};

use crate::faults::ReadFault;
use crate::lexemes::Lexeme;
use crate::progress::{Expect, Progress};

impl Progress {
    // What may follow holds what has been read, so each of them is a variant with its data, and one function answers each.
    // What has been read and the token that comes next are two parameters: a struct of both would be made anew at each token.
    pub(crate) fn step(
        &mut self,
        expect: Expect,
        word: &Lexeme,
    ) -> Result<Option<Expect>, ReadFault>
        requires { Sound (stands self.old (awaits_of expect)) }
        ensures { outcome_of self.new result ≡ stepped self.old (awaits_of expect) word.now }
    {
        match expect {
            Expect::HeaderEnd => self.to_directive(word),
            Expect::Directive => self.directive(word),
            Expect::NewName => self.new_name(word),
            Expect::NamePlace(name) => self.name_place(name, word),
            Expect::DeclarationEnd => self.to_directive(word),
            Expect::StartName => self.start_name(word),
            Expect::StartEnd => self.to_rule(word),
            Expect::RuleOrEnd => self.rule_or_end(word),
            Expect::LeftColon(draft) => self.left_colon(draft, word),
            Expect::FirstPart(draft) => self.first_part(draft, word),
            Expect::NextPart(draft) => self.next_part(draft, word),
            Expect::Opening(head, draft) => self.opening(head, draft, word),
            Expect::AfterPart(draft) => self.after_part(draft, word),
            Expect::AfterConstant(draft) => self.after_constant(draft, word),
            Expect::LowEnd(draft) => self.low_end(draft, word),
            Expect::TwoDots(low, draft) => self.two_dots(low, draft, word),
            Expect::HighEnd(low, draft) => self.high_end(low, draft, word),
            Expect::Mnemonic(draft) => self.mnemonic(draft, word),
            Expect::Size(mnemonic, draft) => self.size(mnemonic, draft, word),
            Expect::Cycles(size, mnemonic, draft) => self.cycles(size, mnemonic, draft, word),
            Expect::RuleEnd => self.to_rule(word),
        }
    }
}
