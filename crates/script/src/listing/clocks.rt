use crate::listing::names::flow_name;
use layout::node::Node;
use std::fmt;
use syntax::header::DerivedClock;

// A derived clock by its number, from 1 on.
fn derived(node: &Node, clock: u8) -> Option<DerivedClock> {
    let place = clock.checked_sub(1)?;
    node.clocks.get(usize::from(place)).copied()
}

// The steps from the base to a clock. They begin late at a clock that is not derived from a lower one.
#[derive(Clone, Copy)]
pub struct Chain<'a> {
    pub node: &'a Node,
    pub clock: u8,
}

impl fmt::Display for Chain<'_> {
    fn fmt<W: fmt::Write>(&self, f: &mut fmt::Formatter<W>) -> fmt::Result {
        let Chain { node, clock } = *self;
        if clock == 0 {
            return Ok(());
        }
        let Some(DerivedClock { parent, flow, side }) = derived(node, clock) else {
            return write!(f, " ?clock{clock}");
        };
        if parent < clock {
            let before = Chain {
                node,
                clock: parent,
            };
            before.fmt(f)?;
        } else {
            write!(f, " ?clock{parent}")?;
        }
        let flow = flow_name(node, usize::from(flow));
        write!(f, " on {flow} = {side}")
    }
}
