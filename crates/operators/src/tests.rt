// The edges of each operator.
use crate::{Binary, Operator, Unary, UnknownOperator};

const TOP: u32 = 0x8000_0000;

const ALL: u32 = 0xffff_ffff;

#[test]
fn one_part(rt: HostRuntime) {
    let table = [
        (Unary::Neg, 0, 0),
        (Unary::Neg, 1, ALL),
        (Unary::Neg, TOP, TOP),
        (Unary::Neg, ALL, 1),
        (Unary::Not, 0, ALL),
        (Unary::Not, ALL, 0),
        (Unary::Not, TOP, TOP - 1),
    ];
    for (operator, a, result) in table {
        assert_eq!(rt; operator.apply(a), result);
    }
}

#[test]
fn two_parts(rt: HostRuntime) {
    let table = [
        (Binary::Add, ALL, 1, 0),
        (Binary::Add, TOP, TOP, 0),
        (Binary::Sub, 0, 1, ALL),
        (Binary::Sub, 5, 5, 0),
        (Binary::Mul, 65536, 65536, 0),
        (Binary::Mul, ALL, ALL, 1),
        (Binary::And, 12, 10, 8),
        (Binary::Or, 12, 10, 14),
        (Binary::Xor, 12, 10, 6),
        (Binary::Lt, ALL, 0, 1),
        (Binary::Lt, 0, ALL, 0),
        (Binary::Lt, TOP, TOP - 1, 1),
        (Binary::Lt, 7, 7, 0),
    ];
    for (operator, a, b, result) in table {
        assert_eq!(rt; operator.apply(a, b), result);
    }
}

#[test]
fn shifts(rt: HostRuntime) {
    let table = [
        (Binary::Shl, 3, 31, TOP),
        (Binary::Shl, 3, 32, 3),
        (Binary::Shl, 3, 33, 6),
        (Binary::Shr, TOP, 31, 1),
        (Binary::Shr, TOP, 32, TOP),
        (Binary::Sar, TOP, 31, ALL),
        (Binary::Sar, TOP, ALL, ALL),
        (Binary::Sar, TOP, 32, TOP),
        (Binary::Sar, TOP - 1, 30, 1),
        (Binary::Sar, ALL - 2, 1, ALL - 1),
    ];
    for (operator, a, b, result) in table {
        assert_eq!(rt; operator.apply(a, b), result);
    }
}

#[test]
fn numbers_and_names(rt: HostRuntime) {
    for number in 0..16 {
        if let Ok(operator) = Operator::try_from(number) {
            assert_eq!(rt; u32::from(operator), number);
            assert!(rt; operator.name().parse() == Ok(operator));
        } else {
            assert!(rt; number == 0 || number == 15);
        }
    }
    assert_eq!(rt; "add".parse::<Operator>(), Err(UnknownOperator));
}
