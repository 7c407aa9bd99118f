// Nonterminals and rules.
ghost use Rattle.std.specs.Prelude.{◌≡◌};
ghost use Rattle.pattern.specs.Patterns.{items_of};
ghost use Rattle.description.specs.Blanks.{blank_name, blank_rule};
ghost use Rattle.description.specs.Rules.{only_operand};

use pattern::figures::Figures;
use pattern::items::Item;
use pattern::names::ShortName;
use pattern::patterns::Pattern;
use pattern::places::Place;
use rows::Entry;

// A declared name, and where its values lie.
#[derive(Clone, Copy)]
pub struct Nonterminal {
    pub name: ShortName,
    pub place: Place,
}

impl Entry for Nonterminal {
    ghost blank = { blank_name };

    fn blank() -> Nonterminal {
        let (Ok(name), Ok(place)) = (ShortName::try_from(&b"a"[..]), Place::try_from(b'A')) else {
            unreachable()
        };
        Nonterminal { name, place }
    }
}

// `left` derives what `pattern` matches, by an instruction with that mnemonic, or by none where the value is only renamed;
// names go by their numbers, from 0.
#[derive(Clone, Copy)]
pub struct Rule {
    pub left: u8,
    pub pattern: Pattern,
    pub mnemonic: Option<ShortName>,
    pub figures: Figures,
}

impl Entry for Rule {
    ghost blank = { blank_rule };

    fn blank() -> Rule {
        let (Ok(pattern), Some(figures)) = (Pattern::try_from([Item::Variable]), Figures::new(0, 0))
        else {
            unreachable()
        };
        Rule {
            left: 0,
            pattern,
            mnemonic: None,
            figures,
        }
    }
}

impl Rule {
    // The name on the right of a chain rule.
    pub fn chain_from(&self) -> Option<u8>
        ensures { result ≡ only_operand (items_of self.now.pattern) }
    {
        match self.pattern.items.as_slice() {
            [Item::Operand(name)] => Some(*name),
            _ => None,
        }
    }
}
