ghost use Rattle.std.specs.Prelude.{◌≡◌};
ghost use Rattle.layout.specs.Layout.{results_in, arguments_in, form_in};
ghost use Rattle.rules.specs.Kinds.{form_kinded};
ghost use Rattle.rules.specs.Views.{node_of, block_of};
ghost use Rattle.equation_rules.specs.Calls.{results_kinded, arguments_kinded};

use layout::node::{Arguments, Equation, Form, Results};
use layout::parts::expression;
use rules::view::looking::{flow_at, node_view};
use rules::view::{BlockView, NodeView};
use syntax::header::Kind;
use typing::kinds::flow_kind;
use typing::walk::kind_of;

fn results_kinded(node: &NodeView<'_>, callee: &NodeView<'_>, results: &Results) -> bool
    ensures { result ≡ results_kinded (node_of node.now) (node_of callee.now) (results_in results.now) }
{
    let inputs = usize::from(callee.inputs);
    results.iter().enumerate().all(|(i, flow)| flow_kind(node, *flow)
        == flow_at(callee.flows, inputs + i).kind)
}

fn arguments_kinded(node: &NodeView<'_>, callee: &NodeView<'_>, arguments: &Arguments) -> bool
    ensures { result ≡ arguments_kinded (node_of node.now) (node_of callee.now) (arguments_in node.now.cells.now arguments.now) }
{
    arguments.iter().enumerate().all(|(i, span)| {
        let kind = kind_of(node, expression(node.cells, *span));
        kind == Some(flow_at(callee.flows, i).kind)
    })
}

// Whether what an equation defines has the kinds of what it is defined by.
pub fn equation_kinded(block: &BlockView<'_>, node: &NodeView<'_>, equation: &Equation) -> bool
    ensures { result ≡ form_kinded (block_of block.now) (node_of node.now) (form_in node.now.cells.now equation.now.form) }
{
    match &equation.form {
        Form::Plain { flow, cells } => {
            kind_of(node, expression(node.cells, *cells)) == Some(flow_kind(node, *flow))
        }
        Form::Delay { flow, first, cells } => {
            let kind = flow_kind(node, *flow);
            Kind::from(*first) == kind
                && kind_of(node, expression(node.cells, *cells)) == Some(kind)
        }
        Form::Call {
            node: callee,
            results,
            arguments,
        } => {
            let callee = node_view(block, usize::from(*callee));
            results_kinded(node, &callee, results) && arguments_kinded(node, &callee, arguments)
        }
    }
}
