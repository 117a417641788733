ghost use Rattle.std.specs.Prelude.{Decides};
ghost use Rattle.layout.specs.Layout.{node_in};
ghost use Rattle.rules.specs.Definitions.{NoCycle};
ghost use Rattle.order.specs.Answers.{OrderAnswer};

use crate::table::{MOST_EQUATIONS, WaitTable};
use layout::node::Node;
use layout::up_to::UpTo;
use rules::view::looking::view_of;
use syntax::cell::Cell;

// An order of a node's equations: their numbers, each after all that define what it needs.
pub type Order = UpTo<u8, MOST_EQUATIONS>;

// An order of the node's equations; none where a flow rests on itself.
pub fn order_of(node: &Node, cells: &[Cell]) -> Option<Order>
    ensures { OrderAnswer (node_in cells.now node.now) result }
{
    // No node has more equations than rows for them.
    prove!(node.equations.len() <= MOST_EQUATIONS);
    WaitTable::of(&view_of(node, cells)).order()
}

// Whether no flow of the node rests on itself by a chain.
pub fn has_no_cycle(node: &Node, cells: &[Cell]) -> bool
    ensures { Decides result (NoCycle (node_in cells.now node.now)) }
{
    order_of(node, cells).is_some()
}
