use crate::listing::joined;
use crate::listing::node::NodeListing;
use layout::node::{Equation, Form, Span};
use std::alloc::AllocError;
use syntax::header::Constant;

impl NodeListing<'_, '_> {
    fn results(&self, results: &[u8]) -> Result<String, AllocError> {
        let names = results
            .iter()
            .map(|flow| self.flow_name(*flow).to_string(self.heap));
        joined(self.heap, names, ", ")
    }

    fn arguments(&self, arguments: &[Span]) -> Result<String, AllocError> {
        let expressions = arguments.iter().map(|span| self.expression(*span));
        joined(self.heap, expressions, ", ")
    }

    fn plain(&self, flow: u8, cells: Span) -> Result<String, AllocError> {
        let name = self.flow_name(flow);
        let value = self.expression(cells)?;
        format!(in self.heap; "{name} = {value};")
    }

    fn delay(&self, flow: u8, first: Constant, cells: Span) -> Result<String, AllocError> {
        let name = self.flow_name(flow);
        let later = self.expression(cells)?;
        format!(in self.heap; "{name} = {first} fby {later};")
    }

    fn call(&self, callee: u8, results: &[u8], arguments: &[Span]) -> Result<String, AllocError> {
        let name = self.node_name(usize::from(callee));
        let results = self.results(results)?;
        let arguments = self.arguments(arguments)?;
        format!(in self.heap; "({results}) = {name}({arguments});")
    }

    // An equation on its line.
    pub fn equation(&self, equation: &Equation) -> Result<String, AllocError> {
        match &equation.form {
            Form::Plain { flow, cells } => self.plain(*flow, *cells),
            Form::Delay { flow, first, cells } => self.delay(*flow, *first, *cells),
            Form::Call {
                node,
                results,
                arguments,
            } => self.call(*node, results, arguments),
        }
    }
}
