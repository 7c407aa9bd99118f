// Building a description, and what it refuses.
use crate::descriptions::Description;
use crate::refusals::{NameRefusal, RuleRefusal, Undeclared};
use crate::rules::{Nonterminal, Rule};
use pattern::figures::Figures;
use pattern::items::Item;
use pattern::names::ShortName;
use pattern::patterns::Pattern;
use pattern::places::Place;
use std::test::Fail;

fn nonterminal(text: &[u8], letter: u8) -> Option<Nonterminal> {
    let name = ShortName::try_from(text).ok()?;
    let place = Place::try_from(letter).ok()?;
    Some(Nonterminal { name, place })
}

// Whether the description took the name.
fn declare(
    description: &mut Description,
    text: &[u8],
    letter: u8,
) -> Option<Result<(), NameRefusal>> {
    Some(description.add_name(nonterminal(text, letter)?))
}

// Whether it took a chain rule that emits nothing.
fn add(description: &mut Description, left: u8, from: u8) -> Option<Result<(), RuleRefusal>> {
    let rule = Rule {
        left,
        pattern: Pattern::try_from(&[Item::Operand(from)][..]).ok()?,
        mnemonic: None,
        figures: Figures::new(0, 0)?,
    };
    Some(description.add_rule(rule))
}

fn number(description: &Description, text: &[u8]) -> Option<usize> {
    description.number_of(&ShortName::try_from(text).ok()?)
}

#[test]
fn names(rt: HostRuntime) {
    let mut description = Description::empty();
    assert!(rt; description.start_number().is_none());
    for letter in b'a'..b'q' {
        assert_eq!(rt; declare(&mut description, &[letter], b'D'), Some(Ok(())));
    }
    assert_eq!(rt;
        declare(&mut description, b"a", b'D'),
        Some(Err(NameRefusal::TooMany))
    );
    assert_eq!(rt; number(&description, b"c"), Some(2));
    assert_eq!(rt; number(&description, b"q"), None);
    assert_eq!(rt; description.start_number(), Some(0));
    assert_eq!(rt; description.set_start(15), Ok(()));
    assert_eq!(rt; description.set_start(16), Err(Undeclared));
    assert_eq!(rt; description.start_number(), Some(15));
}

#[test]
fn rules(rt: HostRuntime) -> Result<(), Fail> {
    let mut description = Description::empty();
    assert_eq!(rt; declare(&mut description, b"d", b'D'), Some(Ok(())));
    assert_eq!(rt; declare(&mut description, b"e", b'D'), Some(Ok(())));
    assert_eq!(rt; declare(&mut description, b"a", b'A'), Some(Ok(())));
    assert_eq!(rt;
        declare(&mut description, b"e", b'E'),
        Some(Err(NameRefusal::Declared))
    );
    assert_eq!(rt;
        add(&mut description, 3, 0),
        Some(Err(RuleRefusal::LeftUndeclared))
    );
    assert_eq!(rt;
        add(&mut description, 0, 3),
        Some(Err(RuleRefusal::OperandUndeclared))
    );
    assert_eq!(rt;
        add(&mut description, 0, 2),
        Some(Err(RuleRefusal::NotRename))
    );
    for _ in 0..128 {
        assert_eq!(rt; add(&mut description, 0, 1), Some(Ok(())));
    }
    assert_eq!(rt;
        add(&mut description, 0, 1),
        Some(Err(RuleRefusal::TooMany))
    );
    assert!(rt; description.rule(0).is_none() && description.rule(129).is_none());
    match description.rule(128) {
        Some(last) => {
            assert_eq!(rt; last.chain_from(), Some(1));
            Ok(())
        },
        None => Err(Fail::new("no last rule")),
    }
}
