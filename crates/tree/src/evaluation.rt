// The values of statements.
ghost use Rattle.std.specs.Prelude.{◌≡◌, ◌<◌, ◌≤◌, length, MatchResult, slice_set};
ghost use Rattle.tree.specs.Checked.{nodes_of};
ghost use Rattle.tree.specs.Evaluations.{Evaluated, EvaluationDenied};
ghost use Rattle.tree.specs.Faults.{evaluation_number, evaluation_place, evaluation_statement};
ghost use Rattle.tree.specs.Stacks.{held, capacity};
ghost use Rattle.tree.specs.Trees.{Tree, postfix, value_of};
ghost use Rattle.tree.specs.Values.{values_after};

use crate::checked::CheckedStatement;
use crate::faults::EvaluationFault;
use crate::nodes::{NODE_LIMIT, Node, Statement, VARIABLES};
use crate::stack::Stack;
use operators::Operator;

// One node: the values of its parts leave the stack, and its own joins.
fn reduce(stack: &mut Stack<u32>, node: Node, setting: &[u32])
    requires { length (held stack.old) < capacity stack.old }
    ensures entries { held stack.new ≡ values_after setting.now node (held stack.old) }
    ensures size { capacity stack.new ≡ capacity stack.old }
{
    let value = match Operator::try_from(node.operator) {
        Err(_) => return,
        Ok(Operator::Cnst) => node.payload,
        Ok(Operator::Var) => setting.get(node.payload as usize).copied().unwrap_or(0),
        Ok(Operator::One(operator)) => operator.apply(stack.pop().unwrap_or(0)),
        Ok(Operator::Two(operator)) => {
            let b = stack.pop().unwrap_or(0);
            let a = stack.pop().unwrap_or(0);
            operator.apply(a, b)
        }
    };
    let _ = stack.push(value);
}

// The value of the tree whose nodes these are.
fn value(nodes: &[Node], setting: &[u32]) -> u32
    requires { length nodes.now ≤ 256 }
    ensures { (t : Tree) → postfix t ≡ nodes.now → result ≡ value_of setting.now t }
{
    let mut memory = [0; NODE_LIMIT];
    let mut stack = Stack::new(&mut memory);
    for node in nodes {
        reduce(&mut stack, *node, setting);
    }
    stack.pop().unwrap_or(0)
}

// Gives the statement's variable the value of its tree.
fn assign(statement: &CheckedStatement, setting: &mut [u32; VARIABLES])
    ensures { (t : Tree) → postfix t ≡ nodes_of statement.now → setting.new ≡ slice_set setting.old statement.now.target (value_of setting.old t) }
{
    let value = value(statement.nodes.as_slice(), setting);
    setting[statement.target as usize] = value;
}

// Carries out the statements in order, each in the setting that those before it leave; on a refusal no variable is changed.
pub fn evaluate(statements: &[Statement], variables: &mut [u32]) -> Result<(), EvaluationFault>
    ensures { MatchResult result (λ _. Evaluated statements.now variables.old variables.new) (λ e. (variables.new ≡ variables.old) × EvaluationDenied statements.now variables.old (evaluation_number e) (evaluation_place e) (evaluation_statement e)) }
{
    if variables.len() != VARIABLES {
        return Err(EvaluationFault::WrongCount(variables.len()));
    }
    let mut setting = [0; VARIABLES];
    setting.copy_from_slice(variables);
    for (i, statement) in statements.iter().enumerate() {
        // As a `map_err` with `?` what is promised of a refusal does not close.
        match statement.check() {
            Ok(checked) => assign(&checked, &mut setting),
            Err(fault) => return Err(EvaluationFault::Refused {
                statement: i,
                fault,
            }),
        }
    }
    variables.copy_from_slice(&setting);
    Ok(())
}
