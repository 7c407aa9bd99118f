// Finding each node's left part.
ghost use Rattle.std.specs.Prelude.{◌≡◌, ◌<◌, ◌≤◌, length, MatchResult};
ghost use Rattle.tree.specs.Checked.{nodes_of};
ghost use Rattle.tree.specs.Stacks.{held, capacity};
ghost use Rattle.matching.specs.Faults.{places_wanted};
ghost use Rattle.matching.specs.Parts.{left_part, left_parts, roots_after};

use super::CheckedTree;
use crate::faults::PartsFault;
use operators::Operator;
use rows::Row;
use tree::checked::CheckedStatement;
use tree::nodes::{NODE_LIMIT, Node};
use tree::stack::Stack;

// The left part of a node; the node's number takes the place of its parts' roots, so that there is room for it.
// A part that is missing counts as 0: no part of a checked statement is.
fn left_of(node: Node, number: usize, roots: &mut Stack<usize>) -> usize
    requires { length (held roots.old) < capacity roots.old }
    ensures value { result ≡ left_part (held roots.old) node }
    ensures entries { held roots.new ≡ roots_after number (held roots.old) node }
    ensures size { capacity roots.new ≡ capacity roots.old }
{
    let left = match Operator::try_from(node.operator) {
        Ok(Operator::Two(_)) => {
            let _ = roots.pop();
            roots.pop().unwrap_or(0)
        }
        Ok(Operator::One(_)) => {
            let _ = roots.pop();
            0
        }
        Ok(Operator::Cnst) | Ok(Operator::Var) | Err(_) => 0,
    };
    let _ = roots.push(number);
    left
}

// The left parts of all nodes. No push is refused: the row has a place for each of at most 256 nodes.
fn parted(nodes: &[Node], memory: &mut [usize]) -> Row<usize, NODE_LIMIT>
    requires few_nodes { length nodes.now ≤ 256 }
    requires room { length nodes.now ≤ length memory.old }
    ensures { result ≡ left_parts nodes.now }
{
    let mut left = Row::new();
    let mut roots = Stack::new(memory);
    for (i, node) in nodes.iter().enumerate() {
        let _ = left.push(left_of(*node, i, &mut roots));
    }
    left
}

impl CheckedTree {
    // The statement's tree with its left parts, or how much memory is wanted where there is less than a place for each node.
    // What the memory holds afterwards is left open: it is working memory.
    pub fn new(
        statement: &CheckedStatement,
        memory: &mut [usize],
    ) -> Result<CheckedTree, PartsFault>
        ensures { MatchResult result (λ t. (length (nodes_of statement.now) ≤ length memory.old) × (t.statement ≡ statement.now)) (λ e. (length memory.old < length (nodes_of statement.now)) × (places_wanted e ≡ length (nodes_of statement.now))) }
    {
        let nodes = statement.nodes.as_slice();
        if memory.len() < nodes.len() {
            return Err(PartsFault::MemoryTooShort(nodes.len()));
        }
        let left = parted(nodes, memory);
        Ok(CheckedTree {
            statement: *statement,
            left,
        })
    }
}
