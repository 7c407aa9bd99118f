// The check of a statement.
ghost use Rattle.std.specs.Prelude.{◌≡◌, ◌+◌, ◌-◌, ◌^◌, ◌<◌, MatchOption, MatchResult};
ghost use Rattle.tree.specs.Checked.{nodes_of};
ghost use Rattle.tree.specs.Faults.{statement_number, statement_place};
ghost use Rattle.tree.specs.Refusals.{PlaceOf};
ghost use Rattle.tree.specs.Statements.{StatementFails, StatementDenied, Faulty, parts_taken};

use super::CheckedStatement;
use crate::faults::StatementFault;
use crate::nodes::{LAST_VARIABLE, NODE_LIMIT, Node, Statement};
use operators::Operator;
use rows::Row;

// How many trees stand after the node, or none where it is at fault.
fn standing_after(before: usize, node: Node) -> Option<usize>
    requires { before + 1 < 2 ^ 64 }
    ensures { MatchOption result (Faulty before node) (λ n. (Faulty before node → ⊥) × (n ≡ before - parts_taken node + 1)) }
{
    let parts = Operator::try_from(node.operator).ok()?.arity();
    if parts > before || parts > 0 && node.payload != 0 {
        return None;
    }
    Some(before - parts + 1)
}

// The first node at fault, or the node count where it is not one tree that stands at the end.
fn malformed(statement: Statement) -> Option<usize>
    ensures { PlaceOf (StatementFails statement.entry.target statement.entry.nodes.now) 11 result }
{
    let nodes = statement.nodes;
    let mut standing = 0;
    for (i, node) in nodes.iter().enumerate() {
        match standing_after(standing, *node) {
            Some(after) => standing = after,
            None => return Some(i),
        }
    }
    if standing == 1 {
        None
    } else {
        Some(nodes.len())
    }
}

// The first node whose variable is over the last, or the node count where the target is.
fn variable_over(statement: Statement) -> Option<usize>
    ensures { PlaceOf (StatementFails statement.entry.target statement.entry.nodes.now) 13 result }
{
    let nodes = statement.nodes;
    let over = nodes.iter().position(|node| {
        node.operator == u32::from(Operator::Var) && node.payload > LAST_VARIABLE
    });
    if over.is_none() && statement.target > LAST_VARIABLE {
        return Some(nodes.len());
    }
    over
}

impl Statement<'_> {
    // The statement with the promise that it keeps the rules, or the first fault in the order of checks, which a `TryFrom` would hide.
    pub fn check(self) -> Result<CheckedStatement, StatementFault>
        ensures { MatchResult result (λ c. (c.target ≡ self.entry.target) × (nodes_of c ≡ self.entry.nodes.now)) (λ e. StatementDenied self.entry.target self.entry.nodes.now (statement_number e) (statement_place e)) }
    {
        if self.nodes.len() > NODE_LIMIT {
            return Err(StatementFault::TooLong);
        }
        if let Some(place) = malformed(self) {
            return Err(StatementFault::Malformed(place));
        }
        if let Some(place) = variable_over(self) {
            return Err(StatementFault::VariableOver(place));
        }
        // Copied only once nothing refuses it.
        let Ok(nodes) = Row::try_from(self.nodes) else {
            unreachable()
        };
        let target = self.target;
        Ok(CheckedStatement { target, nodes })
    }
}
