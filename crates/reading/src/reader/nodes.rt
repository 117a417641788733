ghost use Rattle.std.specs.Prelude.{◌≡◌, ℕ, []};
ghost use Rattle.syntax.specs.Syntax.{NodeSyntax};
ghost use Rattle.syntax.specs.Decoder.{read_equations, read_node, read_fields};
ghost use Rattle.layout.specs.Layout.{equation_row, equation_cells, node_row, node_cells};
ghost use Rattle.reading.specs.Storing.{ReadsRows, made};

use crate::reader::BlockReader;
use crate::reader::rows::Row;
use layout::node::{Equations, Node};
use layout::table::Nodes;
use syntax::fault::ReadFault;

impl Row for Node {
    ghost Item = { NodeSyntax };

    ghost decoder = { read_node };

    ghost row_of = { node_row };

    ghost cells = { node_cells };

    #[tactic(auto, unfolding(syntax::specs::Decoder::read_node))]
    fn read(reader: &mut BlockReader<'_, '_, '_>) -> Result<Node, ReadFault> {
        let inputs = reader.count(3)?;
        let outputs = reader.count(3)?;
        let locals = reader.byte(4)?;
        let clocks = reader.byte(3)?;
        let flows = reader.rows(inputs + outputs + locals)?;
        let clocks = reader.rows(clocks)?;
        let equations = reader.equations()?;
        Ok(Node {
            inputs,
            outputs,
            locals,
            flows,
            clocks,
            equations,
        })
    }
}

impl BlockReader<'_, '_, '_> {
    // The equations of a node.
    #[tactic(auto, unfolding(syntax::specs::Decoder::read_equations))]
    fn equations(&mut self) -> Result<Equations, ReadFault>
        ensures { ReadsRows equation_row equation_cells read_equations self.old self.new result }
    {
        let count = self.equation_count()?;
        self.rows(count)
    }

    // The mark of a block, and its nodes, which go where they are to lie: all of them are too large to be handed on.
    #[tactic(auto, unfolding(syntax::specs::Decoder::read_fields))]
    pub fn nodes(&mut self, nodes: &mut Nodes) -> Result<(), ReadFault>
        requires { nodes.old.items ≡ [] }
        ensures reads { ReadsRows node_row node_cells read_fields self.old self.new (made result nodes.new) }
        ensures same_store { self.new.store.ghost_name ≡ self.old.store.ghost_name }
    {
        self.mark()?;
        let n = self.count(3)?;
        self.fill(n, nodes)
    }
}
