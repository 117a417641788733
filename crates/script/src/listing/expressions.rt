use crate::listing::cells::{Shown, binary_word};
use crate::listing::node::NodeListing;
use layout::node::Span;
use std::alloc::AllocError;
use std::fmt::Write;
use syntax::cell::Cell;

// Why cells have no text as an expression.
#[derive(Debug, Drop)]
enum InfixFault {
    NoExpression,
    OutOfMemory(AllocError),
}

impl From<AllocError> for InfixFault {
    fn from(e: AllocError) -> InfixFault {
        InfixFault::OutOfMemory(e)
    }
}

// The last N parts, in order, which are taken off.
fn take_last<const N: usize>(parts: &mut Vec<String>) -> Result<[String; N], InfixFault> {
    let rest = parts.len().checked_sub(N).ok_or(InfixFault::NoExpression)?;
    let last = parts.split_off(rest)?;
    Ok(<[String; N]>::try_from(last).unwrap())
}

impl NodeListing<'_, '_> {
    // The text of a cell with its parts, which it takes from the last of `parts`.
    fn with_parts(&self, parts: &mut Vec<String>, cell: Cell) -> Result<String, InfixFault> {
        let heap = self.heap;
        let text = match cell {
            Cell::Flow(_) | Cell::Truth(_) | Cell::Number(_) => self.shown(cell).to_string(heap)?,
            Cell::Unary(op) => {
                let [a] = take_last::<1>(parts)?;
                format!(in heap; "({op} {a})")?
            }
            Cell::Binary(code) => {
                let [a, b] = take_last::<2>(parts)?;
                format!(in heap; "({a} {} {b})", binary_word(code))?
            }
            Cell::When(flow, side) => {
                let [a] = take_last::<1>(parts)?;
                format!(in heap; "({a} when {} = {side})", self.flow_name(flow))?
            }
            Cell::Merge(flow) => {
                let [a, b] = take_last::<2>(parts)?;
                format!(in heap; "(merge {} {a} {b})", self.flow_name(flow))?
            }
            Cell::If => {
                let [c, a, b] = take_last::<3>(parts)?;
                format!(in heap; "(if {c} then {a} else {b})")?
            }
        };
        Ok(text)
    }

    // The text of cells that are an expression, which is the one part left at their end.
    fn infix(&self, cells: &[Cell]) -> Result<String, InfixFault> {
        let mut parts = Vec::new(self.heap);
        for cell in cells {
            let text = self.with_parts(&mut parts, *cell)?;
            parts.push(text).map_err(AllocError::from)?;
        }
        let [whole] = <[String; 1]>::try_from(parts).map_err(|_| InfixFault::NoExpression)?;
        Ok(whole)
    }

    fn shown(&self, cell: Cell) -> Shown<'_> {
        Shown {
            node: self.node,
            cell,
        }
    }

    // Cells that are no expression, one after another.
    fn postfix(&self, cells: &[Cell]) -> Result<String, AllocError> {
        // Written into one text: to join a text for each cell takes half as long again.
        let mut text = String::from_str(self.heap, "?cells[")?;
        for (i, cell) in cells.iter().enumerate() {
            let between = if i == 0 { "" } else { " " };
            write!(text, "{between}{}", self.shown(*cell))?;
        }
        text.push(']')?;
        Ok(text)
    }

    pub fn expression(&self, span: Span) -> Result<String, AllocError> {
        let cells = self.rows.expression(span);
        match self.infix(cells) {
            Ok(text) => Ok(text),
            Err(InfixFault::NoExpression) => self.postfix(cells),
            Err(InfixFault::OutOfMemory(e)) => Err(e),
        }
    }
}
