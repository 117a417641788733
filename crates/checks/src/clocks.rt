ghost use Rattle.std.specs.Prelude.{◌≡◌, not, ◌&&◌, ◌||◌, take, ◌==◌, nat_lt, slice_index_or};
ghost use Rattle.layout.specs.Blanks.{blank_flow};
ghost use Rattle.rules.specs.Clocks.{alike, clocks_clocked, ends_on_base, flows_clocked, inputs_by_inputs, is_main};
ghost use Rattle.std.specs.List.{list_all};
ghost use Rattle.rules.specs.Kinds.{clocks_are_truths};
ghost use Rattle.rules.specs.Names.{chain};
ghost use Rattle.rules.specs.Views.{block_of, node_of};

use crate::place::{NodeInBlock, is_main};
use layout::parts::front;
use rules::view::NodeView;
use rules::view::chain::clock_chain;
use rules::view::looking::flow_at;
use syntax::header::{DerivedClock, Flow, Kind};

// Whether the flows of a node's derived clocks are truths.
pub fn clocks_are_truths(node: &NodeView<'_>) -> bool
    ensures { result ≡ clocks_are_truths (node_of node.now) }
{
    node.clocks.iter().all(|clock| flow_at(node.flows, usize::from(clock.flow)).kind == Kind::Truth)
}

// Whether a clock goes by inputs alone, down to the base.
fn by_inputs(clocks: &[DerivedClock], inputs: u8, clock: u8) -> bool
    ensures { result ≡ list_all (λ x. nat_lt x inputs) (chain clocks.now 7 clock) }
{
    clock_chain(clocks, usize::from(clock)).all(|flow| flow < inputs)
}

fn inputs_by_inputs(node: &NodeView<'_>) -> bool
    ensures { result ≡ inputs_by_inputs (node_of node.now) }
{
    front(node.flows, usize::from(node.inputs))
        .iter()
        .all(|flow| by_inputs(node.clocks, node.inputs, flow.clock))
}

fn ends_on_base(node: &NodeView<'_>) -> bool
    ensures { result ≡ ends_on_base (node_of node.now) }
{
    let ends = usize::from(node.inputs) + usize::from(node.outputs);
    front(node.flows, ends).iter().all(|flow| flow.clock == 0)
}

fn flows_clocked(at: &NodeInBlock<'_>) -> bool
    ensures { result ≡ flows_clocked (block_of at.now.block) at.now.number (node_of at.now.node) }
{
    inputs_by_inputs(&at.node) && (is_main(&at.block, at.number) || ends_on_base(&at.node))
}

// Whether none of the earlier clocks is like this one.
fn new_among(earlier: &[DerivedClock], clock: &DerivedClock) -> bool
    ensures { result ≡ list_all (λ e. not (alike e clock.now)) earlier.now }
{
    // Not `!earlier.contains(clock)`: tried, and the proof did not close.
    earlier.iter().all(|other| other != clock)
}

// Whether a derived clock's flow is on its parent, and the clock differs from all before it.
fn clock_clocked(node: &NodeView<'_>, number: usize, clock: &DerivedClock) -> bool
    ensures { result ≡ ((slice_index_or node.now.flows.now clock.now.flow blank_flow).clock == clock.now.parent && list_all (λ e. not (alike e clock.now)) (take number node.now.clocks.now)) }
{
    flow_at(node.flows, usize::from(clock.flow)).clock == clock.parent
        && new_among(front(node.clocks, number), clock)
}

fn clocks_clocked(node: &NodeView<'_>) -> bool
    ensures { result ≡ clocks_clocked (node_of node.now) }
{
    node.clocks
        .iter()
        .enumerate()
        .all(|(i, clock)| clock_clocked(node, i, clock))
}

// Whether the clocks of a node's flows and its derived clocks hold together.
pub fn node_clocked(at: &NodeInBlock<'_>) -> bool
    ensures { result ≡ (flows_clocked (block_of at.now.block) at.now.number (node_of at.now.node) && clocks_clocked (node_of at.now.node)) }
{
    flows_clocked(at) && clocks_clocked(&at.node)
}
