//! The lines of a circuit's tapes, and the output.

ghost use Rattle.std.specs.Prelude.{◌≡◌, ◌≢◌, ◌<◌, ◌≤◌, ◌++◌, ◌∷◌, [], drop, length, Some, IfOk, OnOk, OnErr};
ghost use Rattle.bn_reply.specs.Fronts.{GrewInPart};
ghost use Rattle.bn_reply_relations.specs.RunText.{cells_text, head_text, number_text, output_from, output_line};
ghost use Rattle.bn_reply_relations.specs.RunText.{symbol_text, tape_line, tape_lines};
ghost use Rattle.bn_reply_boards.specs.Shown.{HasLetter, HaveLetters, bounds_text};

use bn_base::push_u64;
use bn_board::{Spelled, SpelledTape};
use bn_lists::NoMemory;
use bn_reply::{push, push_letters, push_position};
use bn_table::Table;
use std::alloc::Global;

/// Appends the lines of three tapes: of each the position of its first cell, of its head, and its cells from left to
/// right. On tapes 1 and 3 the table has a letter for each symbol that is shown. After `NoMemory` a prefix of the lines
/// may follow the text.
pub fn push_tapes(text: &mut Vec<u8>, table: &Table, shown: &Spelled) -> Result<(), NoMemory>
    requires one { HaveLetters table.now 1 shown.now.one.cells }
    requires three { HaveLetters table.now 3 shown.now.three.cells }
    ensures added { OnOk result (text.new.items ≡ text.old.items
        ++ tape_lines table.now shown.now.one shown.now.two shown.now.three) }
    ensures refused { OnErr result (GrewInPart text.old.items text.new.items
        (tape_lines table.now shown.now.one shown.now.two shown.now.three)) }
{
    push_tape(text, table, 1, &shown.one)?;
    push_tape(text, table, 2, &shown.two)?;
    push_tape(text, table, 3, &shown.three)
}

// Appends the line of a tape.
fn push_tape(
    text: &mut Vec<u8>,
    table: &Table,
    tape: u32,
    shown: &SpelledTape,
) -> Result<(), NoMemory>
    requires { HaveLetters table.now tape shown.now.cells }
    ensures added { OnOk result (text.new.items ≡ text.old.items ++ tape_line table.now tape shown.now) }
    ensures refused { OnErr result (GrewInPart text.old.items text.new.items (tape_line table.now tape shown.now)) }
{
    push(text, b"tape ")?;
    push_u64(text, u64::from(tape))?;
    push_bounds(text, shown)?;
    push_cells(text, table, tape, shown.cells.as_slice())?;
    push(text, b"\n")
}

/// Appends the position of a tape's first cell, and of its head. After `NoMemory` a prefix of what is appended may
/// follow the text.
pub fn push_bounds(text: &mut Vec<u8>, shown: &SpelledTape) -> Result<(), NoMemory>
    ensures added { OnOk result (text.new.items ≡ text.old.items ++ bounds_text shown.now) }
    ensures refused { OnErr result (GrewInPart text.old.items text.new.items (bounds_text shown.now)) }
{
    push(text, b" from ")?;
    push_position(text, shown.first)?;
    push(text, b" head ")?;
    push_head(text, shown.head)?;
    push(text, b":")
}

// Appends the position of a head, or a question mark if no cell shows it.
fn push_head(text: &mut Vec<u8>, head: Option<i64>) -> Result<(), NoMemory>
    ensures added { OnOk result (text.new.items ≡ text.old.items ++ head_text head) }
    ensures refused { OnErr result (GrewInPart text.old.items text.new.items (head_text head)) }
{
    match head {
        Some(position) => push_position(text, position),
        None => push(text, b"?"),
    }
}

// Appends the cells of a tape, a space before each.
fn push_cells(
    text: &mut Vec<u8>,
    table: &Table,
    tape: u32,
    cells: &[Option<u32>],
) -> Result<(), NoMemory>
    requires { HaveLetters table.now tape cells.now }
    ensures added { OnOk result (text.new.items ≡ text.old.items ++ cells_text table.now tape cells.now) }
    ensures refused { OnErr result (GrewInPart text.old.items text.new.items (cells_text table.now tape cells.now)) }
{
    for cell in cells {
        push_cell(text, table, tape, *cell)?;
    }
    Ok(())
}

// Appends a space and what a cell of a tape shows.
fn push_cell(
    text: &mut Vec<u8>,
    table: &Table,
    tape: u32,
    cell: Option<u32>,
) -> Result<(), NoMemory>
    requires { HasLetter table.now tape cell }
    ensures added { OnOk result (text.new.items ≡ text.old.items ++ cells_text table.now tape (cell ∷ [])) }
    ensures refused { OnErr result (GrewInPart text.old.items text.new.items (cells_text table.now tape (cell ∷ []))) }
{
    match cell {
        Some(symbol) => {
            push(text, b" ")?;
            push_symbol(text, table, tape, symbol)
        }
        None => push(text, b" ?"),
    }
}

// Appends a symbol on a tape.
fn push_symbol(text: &mut Vec<u8>, table: &Table, tape: u32, symbol: u32) -> Result<(), NoMemory>
    requires { tape ≢ 2 → symbol < table.now.machine.symbols }
    ensures added { OnOk result (text.new.items ≡ text.old.items ++ symbol_text table.now tape symbol) }
    ensures refused { OnErr result (GrewInPart text.old.items text.new.items (symbol_text table.now tape symbol)) }
{
    if tape == 2 {
        push_quintuple(text, symbol)
    } else {
        push_letters(text, table, &[symbol])
    }
}

// Appends a symbol of the history: the blank, or a quintuple's number.
fn push_quintuple(text: &mut Vec<u8>, symbol: u32) -> Result<(), NoMemory>
    ensures added { OnOk result (text.new.items ≡ text.old.items ++ number_text symbol) }
    ensures refused { OnErr result (GrewInPart text.old.items text.new.items (number_text symbol)) }
{
    if symbol == 0 {
        push(text, b"_")
    } else {
        push_u64(text, u64::from(symbol))
    }
}

// Appends the line of the output, which is in these cells of tape 3 from the second on.
pub(crate) fn push_output(
    alloc: Global,
    text: &mut Vec<u8>,
    table: &Table,
    cells: &[Option<u32>],
) -> Result<(), NoMemory>
    requires some { 1 ≤ length cells.now }
    requires letters { HaveLetters table.now 3 cells.now }
    ensures { OnOk result (text.new.items ≡ text.old.items ++ output_line table.now (output_from (drop 1 cells.now))) }
{
    let output = output_of(alloc, &cells[1..])?;
    push(text, b"output =")?;
    push_letters(text, table, output.as_slice())?;
    push(text, b"\n")
}

// The longest word without blanks at the front of these cells.
fn output_of(alloc: Global, cells: &[Option<u32>]) -> Result<Vec<u32>, NoMemory>
    ensures { IfOk result (λ output. output.items ≡ output_from cells.now) }
{
    let mut output = Vec::new(alloc);
    for cell in cells {
        match *cell {
            Some(symbol) if symbol != 0 => output.push(symbol)?,
            _ => return Ok(output),
        }
    }
    Ok(output)
}
