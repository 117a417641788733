ghost use Rattle.std.specs.Prelude.{◌≡◌, position};
ghost use Rattle.rules.specs.Clocks.{derives, side_clock, when_clock, merge_clock};
ghost use Rattle.rules.specs.Names.{flow_clock};
ghost use Rattle.rules.specs.Views.{node_of};

use crate::shared::shared;
use rules::view::NodeView;
use rules::view::looking::flow_at;
use syntax::header::DerivedClock;

pub fn flow_clock(node: &NodeView<'_>, flow: u8) -> usize
    ensures { result ≡ flow_clock (node_of node.now) flow }
{
    usize::from(flow_at(node.flows, usize::from(flow)).clock)
}

// The place of the first clock that is derived so.
fn place_of(clocks: &[DerivedClock], derived: DerivedClock) -> Option<usize>
    ensures { result ≡ position (λ d. derives d derived.parent derived.flow derived.side) clocks.now }
{
    clocks.iter().position(|clock| *clock == derived)
}

// The derived clock by a side of a flow; its parent is the flow's clock. Clocks are numbered from 1.
pub fn side_clock(node: &NodeView<'_>, flow: u8, side: bool) -> Option<usize>
    ensures { result ≡ side_clock (node_of node.now) flow side }
{
    let parent = flow_at(node.flows, usize::from(flow)).clock;
    let place = place_of(node.clocks, DerivedClock { parent, flow, side })?;
    Some(place + 1)
}

// A part on the flow's clock goes on to the side's.
pub fn when_clock(node: &NodeView<'_>, flow: u8, side: bool, part: Option<usize>) -> Option<usize>
    ensures { result ≡ when_clock (node_of node.now) flow side part }
{
    shared(part, Some(flow_clock(node, flow)))?;
    side_clock(node, flow, side)
}

// A true branch and a false one, each on its side, go on to the flow's clock.
pub fn merge_clock(
    node: &NodeView<'_>,
    flow: u8,
    a: Option<usize>,
    b: Option<usize>,
) -> Option<usize>
    ensures { result ≡ merge_clock (node_of node.now) flow a b }
{
    shared(a, side_clock(node, flow, true))?;
    shared(b, side_clock(node, flow, false))?;
    Some(flow_clock(node, flow))
}
