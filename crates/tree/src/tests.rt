// The bounded stack, the refusals of statements, and the order of evaluation.
use crate::evaluation::evaluate;
use crate::faults::{EvaluationFault, StatementFault};
use crate::nodes::{Node, Statement};
use crate::stack::Stack;

fn node(operator: u32, payload: u32) -> Node {
    Node { operator, payload }
}

#[test]
fn newest_first(rt: HostRuntime) {
    let mut memory = [0u8; 2];
    let mut stack = Stack::new(&mut memory);
    assert!(rt; stack.push(5).is_ok());
    assert!(rt; stack.push(6).is_ok());
    assert_eq!(rt; stack.push(7), Err(7));
    assert_eq!(rt; stack.pop(), Some(6));
    assert_eq!(rt; stack.pop(), Some(5));
    assert_eq!(rt; stack.pop(), None);
}

fn fault(target: u32, nodes: &[Node]) -> Option<StatementFault> {
    match (Statement { target, nodes }).check() {
        Ok(_) => None,
        Err(fault) => Some(fault),
    }
}

#[test]
fn refusals(rt: HostRuntime) {
    let sum = [node(2, 63), node(1, 9), node(5, 0)];
    assert_eq!(rt; fault(63, &sum), None);
    assert_eq!(rt; fault(64, &sum), Some(StatementFault::VariableOver(3)));
    assert_eq!(rt; fault(0, &sum[0..2]), Some(StatementFault::Malformed(2)));
    assert_eq!(rt; fault(0, &[]), Some(StatementFault::Malformed(0)));
    assert_eq!(rt;
        fault(0, &[node(2, 64), node(5, 0)]),
        Some(StatementFault::Malformed(1))
    );
    assert_eq!(rt;
        fault(0, &[node(2, 64)]),
        Some(StatementFault::VariableOver(0))
    );
    assert_eq!(rt;
        fault(64, &[node(99, 0); 257]),
        Some(StatementFault::TooLong)
    );
}

// Variable 1 twice by `next`, then `target` by `last`.
fn carried_out<'a>(
    next: &'a [Node],
    target: u32,
    last: &'a [Node],
    variables: &mut [u32],
) -> Result<(), EvaluationFault> {
    let one = Statement {
        target: 1,
        nodes: next,
    };
    evaluate(
        &[
            one,
            one,
            Statement {
                target,
                nodes: last,
            },
        ],
        variables,
    )
}

#[test]
fn in_order(rt: HostRuntime) {
    let next = [node(2, 1), node(1, 1), node(5, 0)];
    let square = [node(2, 1), node(2, 1), node(7, 0)];
    let mut variables = [0; 64];
    assert_eq!(rt; carried_out(&next, 2, &square, &mut variables), Ok(()));
    assert!(rt; variables[1] == 2 && variables[2] == 4);
    let fault = StatementFault::VariableOver(3);
    let refused = Err(EvaluationFault::Refused {
        statement: 2,
        fault,
    });
    assert_eq!(rt; carried_out(&next, 64, &square, &mut variables), refused);
    assert!(rt; variables[1] == 2);
    assert_eq!(rt;
        carried_out(&next, 64, &square, &mut variables[0..63]),
        Err(EvaluationFault::WrongCount(63))
    );
}
