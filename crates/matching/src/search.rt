// Matching a pattern at a node.
ghost use Rattle.std.specs.Prelude.{◌≡◌, ◌+◌, ◌<◌, ◌≤◌, true, [], ◌∷◌, ◌++◌, length, Some, None, MatchOption, slice_index};
ghost use Rattle.tree.specs.Stacks.{held, capacity};
ghost use Rattle.tree.specs.Statements.{node_at};
ghost use Rattle.matching.specs.Checked.{tree_nodes};
ghost use Rattle.matching.specs.Found.{operands_found, payloads_found};
ghost use Rattle.pattern.specs.Items.{count_of_leaves, leaves_in, count_of_operands, operands_in};
ghost use Rattle.matching.specs.Matching.{MatchedAt};
ghost use Rattle.matching.specs.Steps.{fits_node, found_from, operand_there, part_nodes, payload_there};

use crate::matches::{Match, OperandAt};
use crate::trees::CheckedTree;
use operators::Operator;
use pattern::items::Item;
use pattern::patterns::{ITEM_LIMIT, Pattern};
use rows::Row;
use tree::nodes::Node;
use tree::stack::Stack;

// The root waits first, and each item leaves at most one node more waiting than it found.
const WAITING_LIMIT: usize = ITEM_LIMIT + 1;

// Whether the item can stand at the node.
fn fits(item: Item, node: Node) -> bool
    ensures { result ≡ fits_node item node }
{
    match item {
        Item::Operand(_) => true,
        Item::Unary(operator) => node.operator == u32::from(Operator::One(operator)),
        Item::Binary(operator) => node.operator == u32::from(Operator::Two(operator)),
        Item::Constant(range) => node.operator == u32::from(Operator::Cnst)
            && range.admits(node.payload),
        Item::Variable => node.operator == u32::from(Operator::Var),
    }
}

// Keeps what the item finds at a node with this payload. Neither push is refused: there is room for what is found.
fn keep(item: Item, node: usize, payload: u32, found: &mut Match)
    requires operands_fit { length (operands_found found.old) + operands_in item ≤ 2 }
    requires leaves_fit { length (payloads_found found.old) + leaves_in item ≤ 2 }
    ensures operands { operands_found found.new ≡ operands_found found.old ++ operand_there item node }
    ensures payloads { payloads_found found.new ≡ payloads_found found.old ++ payload_there item payload }
{
    match item {
        Item::Operand(operand) => {
            let _ = found.operands.push(OperandAt { operand, node });
        }
        Item::Constant(_) | Item::Variable => {
            let _ = found.payloads.push(payload);
        }
        Item::Unary(_) | Item::Binary(_) => {}
    }
}

// Lets the nodes of the item's parts wait, the left one first. Neither push is refused: there is room for two.
fn await_parts(item: Item, tree: &CheckedTree, node: usize, waiting: &mut Stack<usize>)
    requires inside { node < length (tree_nodes tree.now) }
    requires fit { fits_node item (node_at (tree_nodes tree.now) node) ≡ true }
    requires room { length (held waiting.old) + 2 ≤ capacity waiting.old }
    ensures entries { held waiting.new ≡ part_nodes item node (slice_index tree.now.left node) ++ held waiting.old }
    ensures size { capacity waiting.new ≡ capacity waiting.old }
{
    match item {
        Item::Unary(_) => {
            let _ = waiting.push(node - 1);
        }
        Item::Binary(_) => {
            let left = tree.left.as_slice()[node];
            let right = node - 1;
            let _ = waiting.push(right);
            let _ = waiting.push(left);
        }
        Item::Operand(_) | Item::Constant(_) | Item::Variable => {}
    }
}

// What the items find from this node on.
fn found_at(items: &[Item], tree: &CheckedTree, node: usize) -> Option<Match>
    requires inside { node < length (tree_nodes tree.now) }
    requires short { length items.now ≤ 7 }
    requires operands { count_of_operands items.now ≤ 2 }
    requires leaves { count_of_leaves items.now ≤ 2 }
    ensures { MatchOption result (found_from tree.now items.now (node ∷ []) [] [] ≡ None) (λ m. found_from tree.now items.now (node ∷ []) [] [] ≡ Some (operands_found m, payloads_found m)) }
{
    let nodes = tree.statement.nodes.as_slice();
    let mut memory = [0; WAITING_LIMIT];
    let mut waiting = Stack::new(&mut memory);
    let _ = waiting.push(node);
    let mut found = Match {
        operands: Row::new(),
        payloads: Row::new(),
    };
    for item in items {
        // The items of a pattern never leave the stack empty here, and node 0 would be a node of the tree too.
        let at = waiting.pop().unwrap_or(0);
        let here = nodes[at];
        if !fits(*item, here) {
            return None;
        }
        keep(*item, at, here.payload, &mut found);
        await_parts(*item, tree, at, &mut waiting);
    }
    Some(found)
}

impl CheckedTree {
    // Where the operands fall and which payloads the leaves have, if the pattern matches at the node; none past the tree's end.
    pub fn match_at(&self, pattern: &Pattern, node: usize) -> Option<Match>
        ensures { MatchedAt pattern.now self.now node result }
    {
        if node >= self.statement.nodes.len() {
            return None;
        }
        found_at(pattern.items.as_slice(), self, node)
    }
}
