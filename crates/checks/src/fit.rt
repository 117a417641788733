ghost use Rattle.std.specs.Prelude.{◌≡◌, ◌&&◌, length, ◌==◌, nat_le, nat_lt};
ghost use Rattle.checks.specs.Parts.{call_fits};
ghost use Rattle.layout.specs.Layout.{arguments_in, equation_in, expression_in, form_in, results_in};
ghost use Rattle.std.specs.List.{list_all};
ghost use Rattle.rules.specs.Fit.{clocks_fit, equation_fits, expression_fits, flows_fit, form_fits, is_flow};
ghost use Rattle.rules.specs.Names.{cell_flows};
ghost use Rattle.rules.specs.Views.{block_of, node_of};
ghost use Rattle.syntax.specs.Syntax.{call};

use crate::place::NodeInBlock;
use layout::node::{Arguments, Equation, Form, Results, Span};
use layout::parts::expression;
use rules::view::NodeView;
use rules::view::looking::{cell_flow, node_view};
use syntax::cell::Cell;
use syntax::header::DerivedClock;

// Whether every flow is on the base or on one of the node's derived clocks.
fn flows_fit(node: &NodeView<'_>) -> bool
    ensures { result ≡ flows_fit (node_of node.now) }
{
    node.flows
        .iter()
        .all(|flow| usize::from(flow.clock) <= node.clocks.len())
}

// Whether a derived clock, the one after `earlier` others, has one of these or the base as its parent, and goes by
// one of so many flows.
fn clock_fits(earlier: usize, flows: usize, clock: &DerivedClock) -> bool
    ensures { result ≡ (nat_le clock.now.parent earlier && nat_lt clock.now.flow flows) }
{
    usize::from(clock.parent) <= earlier && usize::from(clock.flow) < flows
}

fn clocks_fit(node: &NodeView<'_>) -> bool
    ensures { result ≡ clocks_fit (node_of node.now) }
{
    node.clocks
        .iter()
        .enumerate()
        .all(|(i, clock)| clock_fits(i, node.flows.len(), clock))
}

// Whether the numbers in a node's flows and derived clocks fit.
pub fn node_fits(node: &NodeView<'_>) -> bool
    ensures { result ≡ (flows_fit (node_of node.now) && clocks_fit (node_of node.now)) }
{
    flows_fit(node) && clocks_fit(node)
}

// Whether a number is a flow of the node.
fn is_flow(node: &NodeView<'_>, flow: u8) -> bool
    ensures { result ≡ is_flow (node_of node.now) flow }
{
    usize::from(flow) < node.flows.len()
}

// Whether a cell names no flow but the node's.
fn cell_fits(node: &NodeView<'_>, cell: Cell) -> bool
    ensures { result ≡ list_all (is_flow (node_of node.now)) (cell_flows cell) }
{
    // A chain and no `is_none_or`: tried, and the proof did not close.
    cell_flow(cell).into_iter().all(|flow| is_flow(node, flow))
}

// Whether an expression names no flow but the node's.
fn expression_fits(node: &NodeView<'_>, span: Span) -> bool
    ensures { result ≡ expression_fits (node_of node.now) (expression_in node.now.cells.now span) }
{
    expression(node.cells, span)
        .iter()
        .all(|cell| cell_fits(node, *cell))
}

fn arguments_fit(node: &NodeView<'_>, arguments: &Arguments) -> bool
    ensures { result ≡ list_all (expression_fits (node_of node.now)) (arguments_in node.now.cells.now arguments.now) }
{
    arguments.iter().all(|span| expression_fits(node, *span))
}

fn results_fit(node: &NodeView<'_>, results: &Results) -> bool
    ensures { result ≡ list_all (is_flow (node_of node.now)) (results_in results.now) }
{
    results.iter().all(|flow| is_flow(node, *flow))
}

// Results and arguments stay two: a struct of them would hold two references and be made at each call.

// Whether a call has as many results and arguments as the callee outputs and inputs, and names no flows but the
// node's.
fn fits_callee(
    called: &NodeView<'_>,
    node: &NodeView<'_>,
    results: &Results,
    arguments: &Arguments,
) -> bool
    ensures { result ≡ call_fits (node_of called.now) (node_of node.now) (results_in results.now) (arguments_in node.now.cells.now arguments.now) }
{
    results.len() == usize::from(called.outputs)
        && arguments.len() == usize::from(called.inputs)
        && results_fit(node, results)
        && arguments_fit(node, arguments)
}

// Whether a callee is earlier than the node that calls it, and the call fits both.
fn call_fits(at: &NodeInBlock<'_>, callee: u8, results: &Results, arguments: &Arguments) -> bool
    ensures { result ≡ form_fits (block_of at.now.block) at.now.number (node_of at.now.node) (call callee (results_in results.now) (arguments_in at.now.node.cells.now arguments.now)) }
{
    let number = usize::from(callee);
    number < at.number && fits_callee(&node_view(&at.block, number), &at.node, results, arguments)
}

fn definition_fits(node: &NodeView<'_>, flow: u8, cells: Span) -> bool
    ensures { result ≡ (is_flow (node_of node.now) flow && expression_fits (node_of node.now) (expression_in node.now.cells.now cells)) }
{
    is_flow(node, flow) && expression_fits(node, cells)
}

fn form_fits(at: &NodeInBlock<'_>, form: &Form) -> bool
    ensures { result ≡ form_fits (block_of at.now.block) at.now.number (node_of at.now.node) (form_in at.now.node.cells.now form.now) }
{
    match form {
        Form::Plain { flow, cells } | Form::Delay { flow, cells, .. } => {
            definition_fits(&at.node, *flow, *cells)
        }
        Form::Call {
            node: callee,
            results,
            arguments,
        } => call_fits(at, *callee, results, arguments),
    }
}

// Whether the numbers and counts of an equation of a node fit the block.
pub fn equation_fits(at: &NodeInBlock<'_>, equation: &Equation) -> bool
    ensures { result ≡ equation_fits (block_of at.now.block) at.now.number (node_of at.now.node) (equation_in at.now.node.cells.now equation.now) }
{
    usize::from(equation.clock) <= at.node.clocks.len() && form_fits(at, &equation.form)
}
