ghost use Rattle.std.specs.Prelude.{◌≡◌};
ghost use Rattle.layout.specs.Layout.{results_in, arguments_in, form_in};
ghost use Rattle.rules.specs.Clocks.{form_clocked};
ghost use Rattle.rules.specs.Views.{node_of};
ghost use Rattle.equation_rules.specs.Calls.{results_on, arguments_on};

use layout::node::{Arguments, Equation, Form, Results};
use layout::parts::expression;
use rules::view::NodeView;
use typing::clocks::flow_clock;
use typing::walk::clock_of;

fn results_on(node: &NodeView<'_>, clock: usize, results: &Results) -> bool
    ensures { result ≡ results_on (node_of node.now) clock (results_in results.now) }
{
    results.iter().all(|flow| flow_clock(node, *flow) == clock)
}

fn arguments_on(node: &NodeView<'_>, clock: usize, arguments: &Arguments) -> bool
    ensures { result ≡ arguments_on (node_of node.now) clock (arguments_in node.now.cells.now arguments.now) }
{
    arguments.iter().all(|span| clock_of(node, expression(node.cells, *span)) == Some(clock))
}

// Whether what an equation defines and what it is defined by are on its clock.
pub fn equation_clocked(node: &NodeView<'_>, equation: &Equation) -> bool
    ensures { result ≡ form_clocked (node_of node.now) equation.now.clock (form_in node.now.cells.now equation.now.form) }
{
    let clock = usize::from(equation.clock);
    match &equation.form {
        Form::Plain { flow, cells } | Form::Delay { flow, cells, .. } => {
            flow_clock(node, *flow) == clock
                && clock_of(node, expression(node.cells, *cells)) == Some(clock)
        }
        Form::Call {
            results,
            arguments,
            ..
        } => results_on(node, clock, results) && arguments_on(node, clock, arguments),
    }
}
