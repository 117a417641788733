ghost use Rattle.std.specs.Prelude.{◌≡◌, if◌then◌else◌, ◌==◌, nat_lt};
ghost use Rattle.checks.specs.Rows.{times_defined};
ghost use Rattle.checks.specs.Sums.{capped};
ghost use Rattle.rules.specs.Definitions.{defined, defined_once, times};
ghost use Rattle.rules.specs.Views.{node_of, row_defines};

use layout::node::{Equation, Form};
use rules::view::NodeView;
use std::slice;

// The flows that an equation defines.
fn defined_flows(form: &Form) -> &[u8]
    ensures { result.now ≡ row_defines form.now }
{
    match form {
        Form::Plain { flow, .. } | Form::Delay { flow, .. } => slice::from_ref(flow),
        Form::Call { results, .. } => results,
    }
}

// How often an equation defines a flow.
fn times_by(form: &Form, flow: usize) -> usize
    ensures { result ≡ times flow (row_defines form.now) }
{
    defined_flows(form)
        .iter()
        .filter(|x| usize::from(**x) == flow)
        .count()
}

// How often equations define a flow, or the largest number where that is more.
fn times_defined(equations: &[Equation], flow: usize) -> usize
    ensures { result ≡ capped (times_defined flow equations.now) }
{
    equations
        .iter()
        .map(|equation| times_by(&equation.form, flow))
        .fold(0, usize::saturating_add)
}

// How often a flow is to be defined: an input never.
fn times_wanted(inputs: u8, flow: usize) -> usize
    ensures { result ≡ (if nat_lt flow inputs then 0 else 1) }
{
    usize::from(flow >= usize::from(inputs))
}

// Whether a node's equations define a flow as often as they should.
fn defined_right(node: &NodeView<'_>, flow: usize) -> bool
    ensures { result ≡ (times flow (defined (node_of node.now)) == (if nat_lt flow node.now.inputs then 0 else 1)) }
{
    times_defined(node.equations, flow) == times_wanted(node.inputs, flow)
}

// Whether a node's equations define every output and local once and no input.
pub fn defined_once(node: &NodeView<'_>) -> bool
    ensures { result ≡ defined_once (node_of node.now) }
{
    node.flows
        .iter()
        .enumerate()
        .all(|(flow, _)| defined_right(node, flow))
}
