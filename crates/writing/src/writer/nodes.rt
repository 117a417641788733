ghost use Rattle.std.specs.Prelude.{◌-◌, ◌≤◌, [], ◌∷◌, length, map};
ghost use Rattle.syntax.specs.Encoder.{equations_fields, node_fields, block_fields};
ghost use Rattle.layout.specs.Layout.{equation_in, node_in};
ghost use Rattle.writing.specs.Writing.{Room, Wrote};

use crate::writer::{BitWriter, Put};
use layout::node::{Equation, Node};
use layout::parts::front;
use layout::table::Nodes;

impl Put for Node {
    ghost fields = { λ cells node. node_fields (node_in cells node) };

    #[tactic(auto, using(crate::proofs::Puts::size_append, crate::proofs::Puts::put_append, crate::proofs::Puts::mapped))]
    fn put(&self, writer: &mut BitWriter<'_>) {
        writer.put_counts(self);
        writer.put_all(front(&self.flows, self.flow_count()));
        writer.put_all(&self.clocks);
        writer.put_equations(&self.equations);
    }
}

impl BitWriter<'_> {
    // How many inputs, outputs, locals and derived clocks a node has.
    fn put_counts(&mut self, node: &Node)
        requires { Room ((3, node.now.inputs - 1) ∷ (3, node.now.outputs - 1) ∷ (4, node.now.locals) ∷ (3, length node.now.clocks.items) ∷ []) self.old }
        ensures { Wrote ((3, node.now.inputs - 1) ∷ (3, node.now.outputs - 1) ∷ (4, node.now.locals) ∷ (3, length node.now.clocks.items) ∷ []) self.old self.new }
    {
        self.put_less_one(3, usize::from(node.inputs));
        self.put_less_one(3, usize::from(node.outputs));
        self.put(4, u32::from(node.locals));
        self.put(3, node.clocks.len() as u32);
    }

    // How many equations there are, and these.
    #[tactic(auto, using(crate::proofs::Puts::mapped))]
    fn put_equations(&mut self, equations: &[Equation])
        requires few { length equations.now ≤ 255 }
        requires room { Room (equations_fields (map (equation_in self.old.cells.now) equations.now)) self.old }
        ensures { Wrote (equations_fields (map (equation_in self.old.cells.now) equations.now)) self.old self.new }
    {
        self.put(5, equations.len() as u32);
        self.put_all(equations);
    }

    #[tactic(auto, using(crate::proofs::Puts::mapped))]
    pub fn put_block(&mut self, nodes: &Nodes)
        requires { Room (block_fields (map (node_in self.old.cells.now) nodes.now.items)) self.old }
        ensures { Wrote (block_fields (map (node_in self.old.cells.now) nodes.now.items)) self.old self.new }
    {
        self.put(8, 0xb7);
        self.put_list(3, nodes);
    }
}
