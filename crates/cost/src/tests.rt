// Sums at their ends, the order of sizes, and the least of a row.
use crate::Cost;
use crate::kinds::{Cycles, Longest, Size};
use crate::least::least;

const TOP: u32 = 4294967295;

#[test]
fn sums(rt: HostRuntime) {
    assert!(rt; Cycles { amount: TOP }.plus(Cycles { amount: 1 }).amount == TOP);
    assert!(rt; Longest { amount: 7 }.plus(Longest { amount: 9 }).amount == 9);
    let both = Size {
        bytes: TOP,
        amount: 3,
    }
    .plus(Size {
        bytes: 1,
        amount: 4,
    });
    assert!(rt; both.bytes == TOP && both.amount == TOP);
    let alone = Size {
        bytes: TOP,
        amount: TOP,
    }
    .plus(Size {
        bytes: 0,
        amount: 4,
    });
    assert!(rt; alone.bytes == TOP && alone.amount == TOP);
    let plain = Size {
        bytes: 10,
        amount: 30,
    }
    .plus(Size {
        bytes: 2,
        amount: 4,
    });
    assert!(rt; plain.bytes == 12 && plain.amount == 34);
}

#[test]
fn order(rt: HostRuntime) {
    assert!(rt;
        Size {
            bytes: 1,
            amount: 9,
        }
        .at_most(Size {
            bytes: 2,
            amount: 0,
        })
    );
    assert!(rt;
        !Size {
            bytes: 2,
            amount: 0,
        }
        .at_most(Size {
            bytes: 1,
            amount: 9,
        })
    );
    assert!(rt;
        !Size {
            bytes: 2,
            amount: 1,
        }
        .at_most(Size {
            bytes: 2,
            amount: 0,
        })
    );
    let five = Some(Cycles { amount: 5 });
    let four = Some(Cycles { amount: 4 });
    assert_eq!(rt; least(&[None, five, four, None, four]), Some(2));
    assert_eq!(rt; least::<Cycles>(&[None, None]), None);
}
