// What names, ranges and patterns are made of.
use crate::missing::Missing;
use operators::{Binary, Unary};
use pattern::figures::Figures;
use pattern::intervals::Interval;
use pattern::items::Item;
use pattern::names::ShortName;
use pattern::patterns::Pattern;
use pattern::places::Place;
use std::test::Fail;

#[test]
fn names(rt: HostRuntime) -> Result<(), Fail> {
    for text in ["a", "d1", "abcdefgh", "z9999999"] {
        assert!(rt; ShortName::try_from(text.as_bytes()).is_ok(), "{}", text);
    }
    for text in ["", "1a", "A", "a_b", "abcdefghi", "a b"] {
        assert!(rt; ShortName::try_from(text.as_bytes()).is_err(), "{}", text);
    }
    let lea = ShortName::try_from(b"lea".as_slice())?;
    let add = ShortName::try_from(b"leaf".as_slice())?;
    assert!(rt; lea == lea);
    assert!(rt; !(lea == add));
    Ok(())
}

#[test]
fn small_parts(rt: HostRuntime) {
    assert!(rt; Place::try_from(b'A').is_ok() && Place::try_from(b'Z').is_ok());
    assert!(rt;
        Place::try_from(b'@').is_err()
            && Place::try_from(b'[').is_err()
            && Place::try_from(b'a').is_err()
    );
    assert!(rt; Figures::new(99, 999).is_some() && Figures::new(0, 0).is_some());
    assert!(rt; Figures::new(100, 0).is_none() && Figures::new(0, 1000).is_none());
}

#[test]
fn ranges(rt: HostRuntime) -> Result<(), Fail> {
    let small = Interval::new(1, 3).ok_or(Missing)?;
    let one = Interval::new(3, 3).ok_or(Missing)?;
    let all = Interval::new(0, u32::MAX).ok_or(Missing)?;
    assert!(rt; Interval::new(4, 3).is_none());
    assert!(rt; !small.admits(0) && small.admits(1) && small.admits(3) && !small.admits(4));
    assert!(rt; all.admits(0) && all.admits(u32::MAX));
    assert!(rt; one.inside(&small) && small.inside(&small) && small.inside(&all));
    assert!(rt; !small.inside(&one) && !all.inside(&small));
    Ok(())
}

fn formed(items: &[Item]) -> bool {
    Pattern::try_from(items).is_ok()
}

// Which lists of items are patterns: whole, and within 7 items, 2 operands and 2 leaves.
#[test]
fn patterns(rt: HostRuntime) {
    let add = Item::Binary(Binary::Add);
    let neg = Item::Unary(Unary::Neg);
    let d = Item::Operand(0);
    let v = Item::Variable;
    assert!(rt; formed(&[d]) && formed(&[v]));
    assert!(rt; formed(&[add, d, neg, d]));
    assert!(rt; formed(&[add, add, d, v, add, d, v]));
    assert!(rt; formed(&[neg, neg, neg, neg, neg, neg, d]));
    assert!(rt; !formed(&[neg, neg, neg, neg, neg, neg, neg, d]), "8 items");
    assert!(rt; !formed(&[add, d, add, d, d]), "3 operands");
    assert!(rt; !formed(&[add, v, add, v, v]), "3 leaves");
    assert!(rt; !formed(&[]) && !formed(&[add, d]), "a part is missing");
    assert!(rt;
        !formed(&[d, d]) && !formed(&[neg, d, v]),
        "a part too many"
    );
}
