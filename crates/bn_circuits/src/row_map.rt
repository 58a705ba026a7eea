//! A flat map from ports to ports: a row of cells for each element, all rows in one array.

ghost use Rattle.std.specs.Prelude.{◌≡◌, ℕ, ◌+◌, ◌^◌, ◌<◌, ◌≤◌, List, [], length, map, replicate, None, IfOk};
ghost use Rattle.std.specs.Prelude.{Some, slice_get, slice_set, option_and_then};
ghost use Rattle.bn_circuits.specs.declared.line.Line.{Line};
ghost use Rattle.bn_circuits.specs.declared.end.TheConstants.{NO_ELEMENT};
ghost use Rattle.bn_circuits.specs.Rows.{entry, width, put, rows_at, AreStarts, starts_from};

use crate::Line;
use crate::end::End;
use bn_lists::NoMemory;
use std::alloc::Global;
use std::marker::Model;

/// A row for each element, with a cell for each of its ports; a cell contains a port or nothing.
#[derive(Debug, Drop)]
pub(crate) struct RowMap {
    // The index of the first cell of each row, and then the number of cells.
    starts: Vec<usize>,
    cells: Vec<End>,
}

impl Model for RowMap {
    ghost use Rattle.bn_circuits.specs.Rows.{Rows, rows_at, AreStarts};
    ghost use Rattle.std.specs.Prelude.{length};

    ghost Value = { Rows };

    ghost view = { λ m. rows_at m.starts.items m.cells.items };

    ghost invariant = { λ m. AreStarts m.starts.items (length m.cells.items) };
}

impl RowMap {
    /// The content of the cell of this port.
    pub(crate) fn get(&self, line: Line) -> Option<Line>
        requires { line.line < width self.now line.element }
        ensures { result ≡ entry self.now line }
    {
        cell_at(self.starts.as_slice(), self.cells.as_slice(), line)
    }

    /// Writes the port `to` into the cell of the port `line`.
    pub(crate) fn set(&mut self, line: Line, to: Line)
        requires within { line.line < width self.old line.element }
        requires low { to.element < NO_ELEMENT }
        ensures { self.new ≡ put self.old line to }
    {
        write_at(self.starts.as_slice(), self.cells.as_mut_slice(), line, to);
    }

    /// Rows of these widths whose cells are all empty.
    pub(crate) fn try_new(alloc: Global, widths: &[u32]) -> Result<RowMap, NoMemory>
        requires { length widths.now < 2 ^ 32 }
        ensures { IfOk result (λ m. m ≡ map (λ w. replicate w None) widths.now) }
    {
        let starts = starts_of(alloc, widths)?;
        let total = starts[widths.len()];
        let cells = vec![in alloc; End::none(); total]?;
        Ok(RowMap { starts, cells })
    }
}

// The content of the cell of this port, among rows that begin at these indices.
fn cell_at(starts: &[usize], cells: &[End], line: Line) -> Option<Line>
    requires are { AreStarts starts.now (length cells.now) }
    requires within { line.line < width (rows_at starts.now cells.now) line.element }
    ensures { result ≡ entry (rows_at starts.now cells.now) line }
{
    cells[place_of(starts, cells, line)].line()
}

// Writes the port `to` into the cell of the port `line`.
fn write_at(starts: &[usize], cells: &mut [End], line: Line, to: Line)
    requires are { AreStarts starts.now (length cells.old) }
    requires within { line.line < width (rows_at starts.now cells.old) line.element }
    requires low { to.element < NO_ELEMENT }
    ensures { rows_at starts.now cells.new ≡ put (rows_at starts.now cells.old) line to }
{
    let place = place_of(starts, cells, line);
    cells[place] = End::of(to);
}

// The index of the cell of this port.
fn place_of(starts: &[usize], cells: &[End], line: Line) -> usize
    requires are { AreStarts starts.now (length cells.now) }
    requires within { line.line < width (rows_at starts.now cells.now) line.element }
    ensures cell { result < length cells.now }
    ensures read { entry (rows_at starts.now cells.now) line ≡ option_and_then (λ o. o) (slice_get cells.now result) }
    ensures written { (to : Line)
        → rows_at starts.now (slice_set cells.now result (Some to)) ≡ put (rows_at starts.now cells.now) line to }
{
    starts[line.element as usize] + line.line as usize
}

// The index at which each row of these widths begins, and then the index at which the last one ends.
fn starts_of(alloc: Global, widths: &[u32]) -> Result<Vec<usize>, NoMemory>
    requires { length widths.now < 2 ^ 32 }
    ensures { IfOk result (λ v. v.items ≡ starts_from 0 widths.now) }
{
    let mut starts = Vec::with_capacity(alloc, widths.len() + 1)?;
    let mut total: usize = 0;
    starts.push(total)?;
    for width in widths {
        total += *width as usize;
        starts.push(total)?;
    }
    Ok(starts)
}
