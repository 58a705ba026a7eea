//! The tape cell as a machine given by a list of moves.
ghost use Rattle.std.specs.Prelude.{◌≡◌, ◌<◌, ◌*◌, ◌++◌, IfOk, OnOk};
ghost use Rattle.bn_network.specs.Cells.{cell_table, cell_line_count};
ghost use Rattle.bn_cell.specs.Sizes.{IsCellSize, IsCellOf};
ghost use Rattle.bn_cell.specs.Rows.{row, rows};

use crate::table::CellTable;
use bn_element::Element;
use bn_lists::NoMemory;
use bn_rsm::{Rsm, RsmMove};
use std::alloc::{AllocError, Global};

/// The tape cell for this number of symbols as a machine given by its moves, listed state by state and, for each
/// state, by rising port. `Err`: out of memory.
pub fn cell(alloc: Global, symbols: u32) -> Result<Rsm, NoMemory>
    requires { IsCellSize symbols }
    ensures { IfOk result (λ m. IsCellOf symbols m) }
{
    let moves = moves_of(alloc, &CellTable { symbols })?;
    Rsm::new(alloc, 2 * symbols, 2 * symbols + 8, moves)
}

// The moves of a cell, state by state.
fn moves_of(alloc: Global, cell: &CellTable) -> Result<Vec<RsmMove>, AllocError>
    ensures { IfOk result (λ v. v.items ≡ rows (cell_table cell.now.symbols) (2 * cell.now.symbols)) }
{
    let mut moves = Vec::new(alloc);
    for state in 0..cell.states() {
        push_row(&mut moves, cell, state)?;
    }
    Ok(moves)
}

// The moves from a state, by rising port.
fn push_row(moves: &mut Vec<RsmMove>, cell: &CellTable, state: u32) -> Result<(), AllocError>
    requires { state < 2 * cell.now.symbols }
    ensures { OnOk result (moves.new.items
        ≡ moves.old.items ++ row (cell_table cell.now.symbols) state (cell_line_count cell.now.symbols)) }
{
    for line in 0..cell.lines_in() {
        if let Some((next, out)) = cell.go(state, line) {
            moves.push(RsmMove {
                state,
                line,
                next,
                out,
            })?;
        }
    }
    Ok(())
}
