// The value of a pattern.
ghost use Rattle.std.specs.Prelude.{◌≡◌, ◌<◌, ◌≤◌, length};
ghost use Rattle.tree.specs.Stacks.{held, capacity};
ghost use Rattle.tree.specs.Values.{top};
ghost use Rattle.pattern.specs.ItemValues.{item_values, values_from};
ghost use Rattle.pattern.specs.Patterns.{items_of};
ghost use Rattle.pattern.specs.Shapes.{Shape, reading, shape_value};

use crate::items::Item;
use crate::patterns::counts::counts;
use crate::patterns::{ITEM_LIMIT, Pattern};
use tree::stack::Stack;

// The values of the item's parts leave the stack, and its own joins.
fn reduce(item: Item, operand: u32, payload: u32, setting: &[u32], stack: &mut Stack<u32>)
    requires { length (held stack.old) < capacity stack.old }
    ensures entries { held stack.new ≡ item_values setting.now item operand payload (held stack.old) }
    ensures size { capacity stack.new ≡ capacity stack.old }
{
    let value = match item {
        Item::Operand(_) => operand,
        Item::Constant(_) => payload,
        Item::Variable => setting.get(payload as usize).copied().unwrap_or(0),
        Item::Unary(operator) => operator.apply(stack.pop().unwrap_or(0)),
        Item::Binary(operator) => {
            let a = stack.pop().unwrap_or(0);
            let b = stack.pop().unwrap_or(0);
            operator.apply(a, b)
        }
    };
    let _ = stack.push(value);
}

// The value of the one pattern that the items are.
fn value_of(items: &[Item], operands: &[u32], payloads: &[u32], setting: &[u32]) -> u32
    requires { length items.now ≤ 7 }
    ensures { result ≡ top (values_from setting.now items.now operands.now payloads.now) }
{
    let mut memory = [0; ITEM_LIMIT];
    let mut stack = Stack::new(&mut memory);
    // How many operands and leaves stand before the item: they are used up from the left, and the items are walked from the right.
    let (mut operand, mut leaf) = counts(items);
    for item in items.iter().rev() {
        operand -= item.operands();
        leaf -= item.leaves();
        let value = operands.get(operand).copied().unwrap_or(0);
        let payload = payloads.get(leaf).copied().unwrap_or(0);
        reduce(*item, value, payload, setting, &mut stack);
    }
    stack.pop().unwrap_or(0)
}

impl Pattern {
    // The value over the operands' values and the leaves' payloads, both used up from the left, in a setting of the variables.
    // What is missing counts as 0, and what is left over is ignored.
    pub fn value(&self, operands: &[u32], payloads: &[u32], setting: &[u32]) -> u32
        ensures { (p : Shape) → reading p ≡ items_of self.now → result ≡ shape_value p operands.now payloads.now setting.now }
    {
        value_of(self.items.as_slice(), operands, payloads, setting)
    }
}
