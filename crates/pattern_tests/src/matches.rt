// Where patterns match, and their values.
use crate::missing::Missing;
use matching::matches::{Match, OperandAt};
use matching::trees::CheckedTree;
use operators::{Binary, Operator, Unary};
use pattern::intervals::Interval;
use pattern::items::Item;
use pattern::patterns::{MalformedPattern, Pattern};
use std::test::Fail;
use tree::nodes::{Node, Statement};

fn node(operator: Operator, payload: u32) -> Node {
    Node {
        operator: u32::from(operator),
        payload,
    }
}

fn tree_of(nodes: &[Node]) -> Result<CheckedTree, Fail> {
    let statement = Statement { target: 0, nodes }.check()?;
    let mut memory = [0; 256];
    Ok(CheckedTree::new(&statement, &mut memory)?)
}

fn pattern_of(items: &[Item]) -> Result<Pattern, MalformedPattern> {
    Pattern::try_from(items)
}

fn within(low: u32, high: u32) -> Result<Item, Fail> {
    Ok(Item::Constant(Interval::new(low, high).ok_or(Missing)?))
}

fn at(operand: u8, node: usize) -> OperandAt {
    OperandAt { operand, node }
}

// Whether the match is there, with these operands at these nodes and these payloads.
fn says(found: Option<Match>, operands: &[OperandAt], payloads: &[u32]) -> bool {
    match found {
        Some(found) => {
            found.operands.as_slice() == operands && found.payloads.as_slice() == payloads
        }
        None => false,
    }
}

// ADD(1,SHL(0,CNST:0..3)) at ADD(VAR:1,SHL(VAR:2,CNST:n)).
#[test]
fn address(rt: HostRuntime) -> Result<(), Fail> {
    let lea = pattern_of(&[
        Item::Binary(Binary::Add),
        Item::Operand(1),
        Item::Binary(Binary::Shl),
        Item::Operand(0),
        within(0, 3)?,
    ])?;
    let shift = node(Operator::Two(Binary::Shl), 0);
    let sum = node(Operator::Two(Binary::Add), 0);
    let base = node(Operator::Var, 1);
    let index = node(Operator::Var, 2);
    let scaled = tree_of(&[base, index, node(Operator::Cnst, 3), shift, sum])?;
    assert!(rt; says(scaled.match_at(&lea, 4), &[at(1, 0), at(0, 1)], &[3]));
    assert!(rt; scaled.match_at(&lea, 3).is_none(), "another operator");
    assert!(rt; scaled.match_at(&lea, 0).is_none(), "a leaf");
    assert!(rt; scaled.match_at(&lea, 5).is_none(), "past the end");
    let over = tree_of(&[base, index, node(Operator::Cnst, 4), shift, sum])?;
    assert!(rt;
        over.match_at(&lea, 4).is_none(),
        "a payload over the range"
    );
    let turned = tree_of(&[index, node(Operator::Cnst, 3), shift, base, sum])?;
    assert!(rt;
        turned.match_at(&lea, 4).is_none(),
        "the parts the other way round"
    );
    assert_eq!(rt; lea.value(&[100, 5], &[3], &[0; 64]), 140);
    assert_eq!(rt;
        lea.value(&[100], &[], &[0; 64]),
        100,
        "what is missing counts as 0"
    );
    Ok(())
}

// ADD(SUB(0,CNST),MUL(1,VAR)), seven items over a tree with a large operand on each side.
#[test]
fn seven_items(rt: HostRuntime) -> Result<(), Fail> {
    let wide = pattern_of(&[
        Item::Binary(Binary::Add),
        Item::Binary(Binary::Sub),
        Item::Operand(0),
        within(0, u32::MAX)?,
        Item::Binary(Binary::Mul),
        Item::Operand(1),
        Item::Variable,
    ])?;
    let x = node(Operator::Var, 7);
    let neg = node(Operator::One(Unary::Neg), 0);
    let and = node(Operator::Two(Binary::And), 0);
    let sub = node(Operator::Two(Binary::Sub), 0);
    let mul = node(Operator::Two(Binary::Mul), 0);
    let add = node(Operator::Two(Binary::Add), 0);
    let tree = tree_of(&[
        x,
        x,
        neg,
        and,
        node(Operator::Cnst, 9),
        sub,
        x,
        x,
        and,
        neg,
        node(Operator::Var, 5),
        mul,
        add,
    ])?;
    assert!(rt; says(tree.match_at(&wide, 12), &[at(0, 3), at(1, 9)], &[9, 5]));
    let mut setting = [0; 64];
    setting[5] = 10;
    assert_eq!(rt; wide.value(&[20, 3], &[9, 5], &setting), 41);
    Ok(())
}

#[test]
fn single_items(rt: HostRuntime) -> Result<(), Fail> {
    let tree = tree_of(&[node(Operator::Var, 7), node(Operator::One(Unary::Not), 0)])?;
    let name = pattern_of(&[Item::Operand(4)])?;
    assert!(rt; says(tree.match_at(&name, 1), &[at(4, 1)], &[]));
    let variable = pattern_of(&[Item::Variable])?;
    assert!(rt; says(tree.match_at(&variable, 0), &[], &[7]));
    let not = pattern_of(&[Item::Unary(Unary::Not), Item::Operand(2)])?;
    assert!(rt; says(tree.match_at(&not, 1), &[at(2, 0)], &[]));
    let neg = pattern_of(&[Item::Unary(Unary::Neg), Item::Operand(2)])?;
    assert!(rt; tree.match_at(&neg, 1).is_none());
    Ok(())
}
