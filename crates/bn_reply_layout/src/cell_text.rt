//! The lines of the text on the cells of a tape.

ghost use Rattle.std.specs.Prelude.{◌≡◌, ◌≢◌, ◌<◌, ◌≤◌, ◌*◌, ◌+◌, ◌++◌, OnOk};
ghost use Rattle.std.specs.List.{flat_map, range_with_len};
ghost use Rattle.bn_network.specs.Cells.{cell_line_count, state_of};
ghost use Rattle.bn_cell.specs.Sizes.{IsCellSize};
ghost use Rattle.bn_reply_relations.specs.RunText.{number_text, symbol_text};
ghost use Rattle.bn_reply_layout.specs.CellText.{cell_column_line, cell_line_line, cell_lines, cell_state_text};

use bn_base::push_u64;
use bn_cell::line_of;
use bn_lists::NoMemory;
use bn_reply::{push, push_letters};
use bn_reply_boards::push_cell_line;
use bn_table::Table;

/// Appends the lines of the columns and the ports that each cell of a tape with this many symbols has.
pub(crate) fn push_tape(
    text: &mut Vec<u8>,
    table: &Table,
    tape: u32,
    symbols: u32,
) -> Result<(), NoMemory>
    requires letters { tape ≢ 2 → symbols ≤ table.now.machine.symbols }
    requires size { IsCellSize symbols }
    ensures { OnOk result (text.new.items ≡ text.old.items ++ cell_lines table.now tape symbols) }
{
    push_columns(text, table, tape, symbols)?;
    push_lines(text, tape, symbols)
}

// Appends the lines of the columns.
fn push_columns(text: &mut Vec<u8>, table: &Table, tape: u32, symbols: u32) -> Result<(), NoMemory>
    requires letters { tape ≢ 2 → symbols ≤ table.now.machine.symbols }
    requires size { IsCellSize symbols }
    ensures { OnOk result (text.new.items ≡ text.old.items
        ++ flat_map (cell_column_line table.now tape symbols) (range_with_len 0 (2 * symbols))) }
{
    for column in 0..2 * symbols {
        push_column(text, table, tape, symbols, column)?;
    }
    Ok(())
}

// Appends the line of a column.
fn push_column(
    text: &mut Vec<u8>,
    table: &Table,
    tape: u32,
    symbols: u32,
    column: u32,
) -> Result<(), NoMemory>
    requires letters { tape ≢ 2 → symbols ≤ table.now.machine.symbols }
    requires size { IsCellSize symbols }
    requires inside { column < 2 * symbols }
    ensures { OnOk result (text.new.items ≡ text.old.items ++ cell_column_line table.now tape symbols column) }
{
    push(text, b"column ")?;
    push_u64(text, u64::from(column))?;
    push(text, b" of tape ")?;
    push_u64(text, u64::from(tape))?;
    push(text, b" ")?;
    push_state(text, table, tape, symbols, column)?;
    push(text, b"\n")
}

// Appends the state of a cell that a column represents.
fn push_state(
    text: &mut Vec<u8>,
    table: &Table,
    tape: u32,
    symbols: u32,
    column: u32,
) -> Result<(), NoMemory>
    requires letters { tape ≢ 2 → symbols ≤ table.now.machine.symbols }
    requires inside { column < 2 * symbols }
    ensures { OnOk result (text.new.items ≡ text.old.items
        ++ cell_state_text table.now tape (state_of symbols column)) }
{
    if column < symbols {
        push(text, b"plain ")?;
        push_symbol(text, table, tape, column)
    } else {
        push(text, b"head ")?;
        push_symbol(text, table, tape, column - symbols)
    }
}

// Appends a symbol on a tape.
fn push_symbol(text: &mut Vec<u8>, table: &Table, tape: u32, symbol: u32) -> Result<(), NoMemory>
    requires { tape ≢ 2 → symbol < table.now.machine.symbols }
    ensures { OnOk result (text.new.items ≡ text.old.items ++ symbol_text table.now tape symbol) }
{
    if tape == 2 {
        push_quintuple(text, symbol)
    } else {
        push_letters(text, table, &[symbol])
    }
}

// Appends a symbol of the history: the blank, or a quintuple's number.
fn push_quintuple(text: &mut Vec<u8>, symbol: u32) -> Result<(), NoMemory>
    ensures { OnOk result (text.new.items ≡ text.old.items ++ number_text symbol) }
{
    if symbol == 0 {
        push(text, b"_")
    } else {
        push_u64(text, u64::from(symbol))
    }
}

// Appends the lines of the ports.
fn push_lines(text: &mut Vec<u8>, tape: u32, symbols: u32) -> Result<(), NoMemory>
    requires { IsCellSize symbols }
    ensures { OnOk result (text.new.items ≡ text.old.items
        ++ flat_map (cell_line_line tape symbols) (range_with_len 0 (cell_line_count symbols))) }
{
    for line in 0..2 * symbols + 8 {
        push_line(text, tape, symbols, line)?;
    }
    Ok(())
}

// Appends the line of a port.
fn push_line(text: &mut Vec<u8>, tape: u32, symbols: u32, line: u32) -> Result<(), NoMemory>
    requires size { IsCellSize symbols }
    requires inside { line < cell_line_count symbols }
    ensures { OnOk result (text.new.items ≡ text.old.items ++ cell_line_line tape symbols line) }
{
    push(text, b"line ")?;
    push_u64(text, u64::from(line))?;
    push(text, b" of tape ")?;
    push_u64(text, u64::from(tape))?;
    push(text, b" ")?;
    push_cell_line(text, line_of(symbols, line))?;
    push(text, b"\n")
}
