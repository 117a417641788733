use crate::listing::names::{Name, flow_name, node_name};
use block::rows::Rows;
use layout::node::Node;
use std::alloc::{AllocError, Global};
use std::fmt::Write;

// A node of a block that was read. Texts and no `Display`: an expression takes memory of its own, and `fmt` could not
// say that there is none.
#[derive(Clone, Copy)]
pub struct NodeListing<'a, 'm> {
    pub heap: Global,
    pub rows: &'a Rows<'m>,
    pub node: &'a Node,
}

impl NodeListing<'_, '_> {
    pub fn node_name(&self, number: usize) -> Name {
        node_name(self.rows.nodes().len(), number)
    }

    pub fn flow_name(&self, flow: u8) -> Name {
        flow_name(self.node, usize::from(flow))
    }

    fn heading(&self, number: usize) -> Result<String, AllocError> {
        let name = self.node_name(number);
        let inputs = usize::from(self.node.inputs);
        let ins = self.declarations(0, inputs)?;
        let outs = self.declarations(inputs, usize::from(self.node.outputs))?;
        format!(in self.heap; "node {name}({ins}) returns ({outs})")
    }

    // The line of the locals; none where there are no locals.
    fn var_line(&self) -> Result<String, AllocError> {
        if self.node.locals == 0 {
            return Ok(String::new(self.heap));
        }
        let from = usize::from(self.node.inputs) + usize::from(self.node.outputs);
        let locals = self.declarations(from, usize::from(self.node.locals))?;
        format!(in self.heap; "var {locals};\n")
    }

    // The lines of the equations.
    fn body(&self) -> Result<String, AllocError> {
        let mut text = String::new(self.heap);
        for equation in &self.node.equations {
            let line = self.equation(equation)?;
            writeln!(text, "  {line}")?;
        }
        Ok(text)
    }

    // The node by its number in the block.
    pub fn text(&self, number: usize) -> Result<String, AllocError> {
        let heading = self.heading(number)?;
        let var = self.var_line()?;
        let body = self.body()?;
        format!(in self.heap; "{heading}\n{var}let\n{body}tel")
    }
}
