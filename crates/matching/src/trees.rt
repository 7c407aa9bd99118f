// Trees that patterns are matched at.
ghost use Rattle.std.specs.Prelude.{◌≡◌};
ghost use Rattle.tree.specs.Checked.{nodes_of};
ghost use Rattle.matching.specs.Parts.{left_parts};

use rows::Row;
use tree::checked::CheckedStatement;
use tree::nodes::NODE_LIMIT;

mod finder;

// A checked statement with the left part of each of its nodes: 0 where a node has not two parts. The statement stays whole, with its
// promise, so the left parts are a row beside its nodes.
#[derive(Clone, Copy)]
pub struct CheckedTree {
    pub statement: CheckedStatement,
    pub left: Row<usize, NODE_LIMIT>,
    ghost parted: { left ≡ left_parts (nodes_of statement) },
}
