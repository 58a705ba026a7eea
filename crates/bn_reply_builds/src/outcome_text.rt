//! The names of a table in the text of a circuit: where its signal is, and its tapes.

ghost use Rattle.std.specs.Prelude.{◌≡◌, ◌++◌, ◌∷◌, [], ◌<◌, ◌≤◌, ℕ, codes, length, OnOk, OnErr, Some};
ghost use Rattle.bn_circuits.specs.declared.line.Line.{Line};
ghost use Rattle.bn_quad.specs.Names.{symbols_on};
ghost use Rattle.bn_qtable.specs.Rows.{counts_of, table_of};
ghost use Rattle.bn_reply_builds.specs.DriveText.{drive_cells_text, drive_tape_line, name_in};
ghost use Rattle.bn_reply.specs.Fronts.{GrewInPart};
ghost use Rattle.bn_reply_builds.specs.Outcomes.{drive_tape_lines, outcome_line, scanned_text, stop_line};

use crate::outcome::{Outcome, Stop};
use bn_base::push_u64;
use bn_board::{Spelled, SpelledTape};
use bn_lists::NoMemory;
use bn_quad::{QuadMachine, QuadNames};
use bn_reply::push;
use bn_reply_boards::{push_bounds, push_inside, push_window};

/// The names of a table's states and symbols, of which its machine has as many.
#[derive(Clone, Copy)]
pub struct TableNames<'a> {
    /// The machine.
    pub machine: &'a QuadMachine,
    /// The names.
    pub names: &'a QuadNames,
}

/// Appends the line that says where the signal is. After `NoMemory` a prefix of the line may follow the text.
pub fn push_outcome(
    text: &mut Vec<u8>,
    names: &TableNames<'_>,
    outcome: Outcome,
) -> Result<(), NoMemory>
    requires states { names.now.machine.now.states ≡ length names.now.names.now.states }
    requires symbols { names.now.machine.now.symbols ≡ counts_of names.now.names.now }
    requires inside { (line : Line) → outcome ≡ Outcome.Inside line → line.line < 4 }
    ensures added { OnOk result (text.new.items
        ≡ text.old.items ++ outcome_line (table_of names.now.machine.now names.now.names.now) outcome) }
    ensures refused { OnErr result (GrewInPart text.old.items text.new.items
        (outcome_line (table_of names.now.machine.now names.now.names.now) outcome)) }
{
    match outcome {
        Outcome::Inside(line) => push_inside(text, line),
        Outcome::End => push(text, b"exit end\n"),
        Outcome::Stuck(stop) => push_stop(text, names, stop),
        Outcome::Window { tape, side } => push_window(text, tape, side),
        Outcome::Unnamed => Ok(()),
    }
}

// Appends the line of a machine that is stuck.
fn push_stop(text: &mut Vec<u8>, names: &TableNames<'_>, stop: Stop) -> Result<(), NoMemory>
    requires states { names.now.machine.now.states ≡ length names.now.names.now.states }
    requires symbols { names.now.machine.now.symbols ≡ counts_of names.now.names.now }
    ensures added { OnOk result (text.new.items
        ≡ text.old.items ++ stop_line (table_of names.now.machine.now names.now.names.now) stop) }
    ensures refused { OnErr result (GrewInPart text.old.items text.new.items
        (stop_line (table_of names.now.machine.now names.now.names.now) stop)) }
{
    push(text, b"exit stuck ")?;
    push_state(text, names, stop.state)?;
    push_scanned(text, names, stop)?;
    push(text, b"\n")
}

// Appends the names of the symbols that the heads scan, a space before each.
fn push_scanned(text: &mut Vec<u8>, names: &TableNames<'_>, stop: Stop) -> Result<(), NoMemory>
    requires { names.now.machine.now.symbols ≡ counts_of names.now.names.now }
    ensures added { OnOk result (text.new.items
        ≡ text.old.items ++ scanned_text (table_of names.now.machine.now names.now.names.now) stop) }
    ensures refused { OnErr result (GrewInPart text.old.items text.new.items
        (scanned_text (table_of names.now.machine.now names.now.names.now) stop)) }
{
    push_spaced(text, names, 1, stop.one)?;
    push_spaced(text, names, 2, stop.two)?;
    push_spaced(text, names, 3, stop.three)
}

// Appends a space and the name of the symbol of a tape with this number, if there is one.
fn push_spaced(
    text: &mut Vec<u8>,
    names: &TableNames<'_>,
    tape: u32,
    symbol: u32,
) -> Result<(), NoMemory>
    requires first { 1 ≤ tape }
    requires last { tape ≤ 3 }
    requires counted { names.now.machine.now.symbols ≡ counts_of names.now.names.now }
    ensures added { OnOk result (text.new.items
        ≡ text.old.items ++ (codes " " ++ name_in (symbols_on names.now.names.now tape) symbol)) }
    ensures refused { OnErr result (GrewInPart text.old.items text.new.items
        (codes " " ++ name_in (symbols_on names.now.names.now tape) symbol)) }
{
    push(text, b" ")?;
    push_symbol(text, names, tape, symbol)
}

/// Appends the name of the state with this number, if there is one. After `NoMemory` the text is unchanged.
pub fn push_state(text: &mut Vec<u8>, names: &TableNames<'_>, state: u32) -> Result<(), NoMemory>
    requires { names.now.machine.now.states ≡ length names.now.names.now.states }
    ensures added { OnOk result (text.new.items ≡ text.old.items ++ name_in names.now.names.now.states state) }
    ensures refused { OnErr result (text.new.items ≡ text.old.items) }
{
    if state < names.machine.states() {
        push(text, names.names.state(state))
    } else {
        Ok(())
    }
}

// Appends the name of the symbol of a tape with this number, if there is one.
fn push_symbol(
    text: &mut Vec<u8>,
    names: &TableNames<'_>,
    tape: u32,
    symbol: u32,
) -> Result<(), NoMemory>
    requires first { 1 ≤ tape }
    requires last { tape ≤ 3 }
    requires counted { names.now.machine.now.symbols ≡ counts_of names.now.names.now }
    ensures added { OnOk result (text.new.items
        ≡ text.old.items ++ name_in (symbols_on names.now.names.now tape) symbol) }
    ensures refused { OnErr result (text.new.items ≡ text.old.items) }
{
    if symbol < names.machine.symbols(tape) {
        push(text, names.names.symbol(tape, symbol))
    } else {
        Ok(())
    }
}

/// Appends the lines of the three tapes. After `NoMemory` a prefix of the lines may follow the text.
pub fn push_tapes(
    text: &mut Vec<u8>,
    names: &TableNames<'_>,
    shown: &Spelled,
) -> Result<(), NoMemory>
    requires { names.now.machine.now.symbols ≡ counts_of names.now.names.now }
    ensures added { OnOk result (text.new.items
        ≡ text.old.items ++ drive_tape_lines (table_of names.now.machine.now names.now.names.now) shown.now) }
    ensures refused { OnErr result (GrewInPart text.old.items text.new.items
        (drive_tape_lines (table_of names.now.machine.now names.now.names.now) shown.now)) }
{
    push_tape(text, names, 1, &shown.one)?;
    push_tape(text, names, 2, &shown.two)?;
    push_tape(text, names, 3, &shown.three)
}

// Appends the line of a tape.
fn push_tape(
    text: &mut Vec<u8>,
    names: &TableNames<'_>,
    tape: u32,
    shown: &SpelledTape,
) -> Result<(), NoMemory>
    requires first { 1 ≤ tape }
    requires last { tape ≤ 3 }
    requires counted { names.now.machine.now.symbols ≡ counts_of names.now.names.now }
    ensures added { OnOk result (text.new.items
        ≡ text.old.items ++ drive_tape_line (symbols_on names.now.names.now tape) tape shown.now) }
    ensures refused { OnErr result (GrewInPart text.old.items text.new.items
        (drive_tape_line (symbols_on names.now.names.now tape) tape shown.now)) }
{
    push(text, b"tape ")?;
    push_u64(text, u64::from(tape))?;
    push_bounds(text, shown)?;
    push_cells(text, names, tape, shown.cells.as_slice())?;
    push(text, b"\n")
}

// Appends the cells of a tape, a space before each.
fn push_cells(
    text: &mut Vec<u8>,
    names: &TableNames<'_>,
    tape: u32,
    cells: &[Option<u32>],
) -> Result<(), NoMemory>
    requires first { 1 ≤ tape }
    requires last { tape ≤ 3 }
    requires counted { names.now.machine.now.symbols ≡ counts_of names.now.names.now }
    ensures added { OnOk result (text.new.items
        ≡ text.old.items ++ drive_cells_text (symbols_on names.now.names.now tape) cells.now) }
    ensures refused { OnErr result (GrewInPart text.old.items text.new.items
        (drive_cells_text (symbols_on names.now.names.now tape) cells.now)) }
{
    for cell in cells {
        push_cell(text, names, tape, *cell)?;
    }
    Ok(())
}

// Appends a space and what a cell of a tape shows.
fn push_cell(
    text: &mut Vec<u8>,
    names: &TableNames<'_>,
    tape: u32,
    cell: Option<u32>,
) -> Result<(), NoMemory>
    requires first { 1 ≤ tape }
    requires last { tape ≤ 3 }
    requires counted { names.now.machine.now.symbols ≡ counts_of names.now.names.now }
    ensures added { OnOk result (text.new.items
        ≡ text.old.items ++ drive_cells_text (symbols_on names.now.names.now tape) (cell ∷ [])) }
    ensures refused { OnErr result (GrewInPart text.old.items text.new.items
        (drive_cells_text (symbols_on names.now.names.now tape) (cell ∷ []))) }
{
    match cell {
        Some(symbol) => push_spaced(text, names, tape, symbol),
        None => push(text, b" ?"),
    }
}
