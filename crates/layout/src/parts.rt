ghost use Rattle.std.specs.Prelude.{◌≡◌, ◌≤◌, length, take};
ghost use Rattle.layout.specs.Layout.{expression_in};

use crate::node::Span;
use syntax::cell::Cell;

// The first `n` rows, or all where there are no more.
pub fn front<T>(rows: &[T], n: usize) -> &[T]
    ensures { result.now ≡ take n rows.now }
{
    &rows[..n.min(rows.len())]
}

// The cells of an expression.
pub fn expression(cells: &[Cell], span: Span) -> &[Cell]
    ensures part { result.now ≡ expression_in cells.now span }
    ensures few { length result.now ≤ 255 }
{
    let from = usize::from(span.from).min(cells.len());
    front(&cells[from..], usize::from(span.len))
}
