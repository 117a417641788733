ghost use Rattle.std.specs.Prelude.{◌≡◌, ◌-◌, length, slice_index_or};
ghost use Rattle.std.specs.Option.{option_to_list};
ghost use Rattle.layout.specs.Blanks.{blank_flow, blank_clock};
ghost use Rattle.layout.specs.Layout.{node_in};
ghost use Rattle.rules.specs.Names.{cell_flows, node_at};
ghost use Rattle.rules.specs.Views.{node_of, block_of};

use crate::view::{BlockView, NodeView};
use layout::node::Node;
use layout::parts::front;
use syntax::cell::Cell;
use syntax::header::{DerivedClock, Flow};

// A flow by its number; a blank one where there is none.
pub fn flow_at(flows: &[Flow], number: usize) -> Flow
    ensures { result ≡ slice_index_or flows.now number blank_flow }
{
    flows.get(number).copied().unwrap_or_default()
}

// A derived clock by its number, from 1 on; a blank one where there is none.
pub fn clock_at(clocks: &[DerivedClock], number: usize) -> DerivedClock
    ensures { result ≡ slice_index_or clocks.now (number - 1) blank_clock }
{
    let i = number.saturating_sub(1);
    clocks.get(i).copied().unwrap_or_default()
}

// The flow that a cell names, if it names one.
pub fn cell_flow(cell: Cell) -> Option<u8>
    ensures { option_to_list result ≡ cell_flows cell }
{
    match cell {
        Cell::Flow(flow) | Cell::When(flow, _) | Cell::Merge(flow) => Some(flow),
        _ => None,
    }
}

// A node's rows.
pub fn view_of<'a>(node: &'a Node, cells: &'a [Cell]) -> NodeView<'a>
    ensures { node_of result ≡ node_in cells.now node.now }
{
    NodeView {
        inputs: node.inputs,
        outputs: node.outputs,
        locals: node.locals,
        flows: front(&node.flows, node.flow_count()),
        clocks: &node.clocks,
        equations: &node.equations,
        cells,
    }
}

// A node by its number; one with no rows where there is none.
#[tactic(auto, unfolding(crate::specs::Views::block_of))]
pub fn node_view<'a>(block: &BlockView<'a>, number: usize) -> NodeView<'a>
    ensures { node_of result ≡ node_at (block_of block.now) number }
{
    match block.nodes.get(number) {
        Some(node) => view_of(node, block.cells),
        None => NodeView {
            inputs: 0,
            outputs: 0,
            locals: 0,
            flows: &[],
            clocks: &[],
            equations: &[],
            cells: block.cells,
        },
    }
}
