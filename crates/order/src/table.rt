ghost use Rattle.std.specs.Prelude.{◌≡◌, ◌≤◌, not, ◌&&◌, length, map, position, zip};
ghost use Rattle.layout.specs.Layout.{equation_in};
ghost use Rattle.rules.specs.Views.{node_of};
ghost use Rattle.order.specs.Waiting.{waits_on};
ghost use Rattle.order.specs.Picking.{is_held, Picked, Settled};
ghost use Rattle.order.specs.Table.{wait_rows};

use crate::waiting::equation_waits;
use layout::node::Equation;
use layout::up_to::UpTo;
use rules::view::NodeView;
use std::marker::Model;

// No node has more equations.
pub const MOST_EQUATIONS: usize = layout::node::MOST_EQUATIONS;

// Which equations wait on which: in the row of each a mark for each, whether it waits on that. So there are as many
// marks in a row as rows.
#[derive(Drop)]
pub struct WaitTable {
    rows: UpTo<UpTo<bool, MOST_EQUATIONS>, MOST_EQUATIONS>,
}

impl Model for WaitTable {
    ghost use Rattle.std.specs.Prelude.{◌≡◌, Bool, List, length, map, All};
    ghost use Rattle.layout.specs.Vectors.{Items};

    ghost Value = { List (List Bool) };

    ghost view = { λ t. map (λ (row : Items Bool). row.items) t.rows.items };

    ghost invariant = { λ t. All (λ (row : Items Bool). length row.items ≡ length t.rows.items) t.rows.items };
}

// Which equations one of them waits on.
fn row_of(view: &NodeView<'_>, equation: &Equation) -> UpTo<bool, MOST_EQUATIONS>
    requires { length view.now.equations.now ≤ MOST_EQUATIONS }
    ensures { result.items ≡ map (waits_on (node_of view.now) (equation_in view.now.cells.now equation.now)) (node_of view.now).equations }
{
    // Pushed one by one, here and below: to collect takes an allocator.
    let mut row = UpTo::new();
    for on in view.equations {
        row.push(equation_waits(view, equation, on));
    }
    row
}

// Whether one with these marks waits on something that is not done.
fn is_held(row: &[bool], done: &[bool]) -> bool
    ensures { result ≡ is_held row.now done.now }
{
    row.iter()
        .zip(done)
        .any(|(waits, is_done)| *waits && !*is_done)
}

// The first row of what is not done and waits on nothing that is not.
fn free_row(rows: &[UpTo<bool, MOST_EQUATIONS>], done: &[bool]) -> Option<usize>
    ensures { result ≡ position (λ (row, is_done). not is_done && not (is_held row.items done.now)) (zip rows.now done.now) }
{
    rows.iter()
        .zip(done)
        .position(|(row, is_done)| !*is_done && !is_held(row, done))
}

impl WaitTable {
    // The table of a node.
    pub fn of(view: &NodeView<'_>) -> Self
        requires { length view.now.equations.now ≤ MOST_EQUATIONS }
        ensures { result ≡ wait_rows (node_of view.now) }
    {
        let mut rows = UpTo::new();
        for equation in view.equations {
            rows.push(row_of(view, equation));
        }
        WaitTable { rows }
    }

    fn len(&self) -> usize
        ensures value { result ≡ length self.now }
        ensures few { result ≤ MOST_EQUATIONS }
    {
        self.rows.len()
    }

    // The first that is not done and waits on nothing that is not.
    fn next(&self, done: &[bool; MOST_EQUATIONS]) -> Option<usize>
        ensures { Picked self.now done.now result }
    {
        free_row(&self.rows, done)
    }

    // All of them, each after those that it waits on; none where some wait on one another in a circle. The marks of what
    // is done stand beside the rows, which stay as they are.
    pub fn order(&self) -> Option<UpTo<u8, MOST_EQUATIONS>>
        ensures { Settled self.now result }
    {
        let mut done = [false; MOST_EQUATIONS];
        let mut order = UpTo::new();
        for _ in 0..self.len() {
            let x = self.next(&done)?;
            order.push(x as u8);
            done[x] = true;
        }
        Some(order)
    }
}
