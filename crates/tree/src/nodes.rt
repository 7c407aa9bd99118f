// Nodes of a tree, and statements as they are handed in.
ghost use Rattle.tree.specs.Statements.{node_past};

use rows::Entry;

// A tree has at most so many nodes.
pub const NODE_LIMIT: usize = 256;

// There are so many variables.
pub const VARIABLES: usize = 64;

// The number of the last variable.
pub const LAST_VARIABLE: u32 = 63;

// One node: an operator's number and a payload, each any word. A number and no `Operator`, since statements are handed in unchecked.
#[derive(Clone, Copy, Debug, PartialEq, Eq)]
pub struct Node {
    pub operator: u32,
    pub payload: u32,
}

impl Entry for Node {
    ghost blank = { node_past };

    fn blank() -> Node {
        Node {
            operator: 0,
            payload: 0,
        }
    }
}

// The variable `target` is given the value of the tree whose nodes stand in postfix order.
#[derive(Clone, Copy, Debug)]
pub struct Statement<'a> {
    pub target: u32,
    pub nodes: &'a [Node],
}
