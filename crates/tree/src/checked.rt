// Statements that keep the rules.
ghost use Rattle.tree.specs.Statements.{StatementGranted};

use crate::nodes::{NODE_LIMIT, Node};
use rows::Row;

mod check;

// A statement that no condition refuses.
#[derive(Clone, Copy)]
pub struct CheckedStatement {
    pub target: u32,
    pub nodes: Row<Node, NODE_LIMIT>,
    ghost granted: { StatementGranted target nodes },
}
