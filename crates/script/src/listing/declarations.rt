use crate::listing::clocks::Chain;
use crate::listing::joined;
use crate::listing::names::flow_name;
use crate::listing::node::NodeListing;
use layout::node::Node;
use std::alloc::AllocError;
use std::fmt;
use syntax::header::Flow;

// A flow of a node, with its number there, as it is declared.
#[derive(Clone, Copy)]
struct Declaration<'a> {
    node: &'a Node,
    number: usize,
    flow: Flow,
}

impl fmt::Display for Declaration<'_> {
    fn fmt<W: fmt::Write>(&self, f: &mut fmt::Formatter<W>) -> fmt::Result {
        let name = flow_name(self.node, self.number);
        let kind = self.flow.kind;
        let chain = Chain {
            node: self.node,
            clock: self.flow.clock,
        };
        write!(f, "{name}: {kind}{chain}")
    }
}

impl NodeListing<'_, '_> {
    // The declarations of `count` flows from `from` on.
    pub fn declarations(&self, from: usize, count: usize) -> Result<String, AllocError> {
        let node = self.node;
        let heap = self.heap;
        let flows = node.flows.iter().enumerate().skip(from).take(count);
        let declarations = flows.map(|(number, flow)| {
            let flow = *flow;
            Declaration { node, number, flow }.to_string(heap)
        });
        joined(heap, declarations, ", ")
    }
}
