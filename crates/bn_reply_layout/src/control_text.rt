//! The lines of the text on the control's columns and ports.

ghost use Rattle.std.specs.Prelude.{◌≡◌, ◌<◌, ◌+◌, ◌++◌, ◌∷◌, [], All, codes, decimal, length, map, OnOk};
ghost use Rattle.std.specs.List.{flat_map, range_with_len};
ghost use Rattle.bn_bennett_laws.specs.List.{symbols_of};
ghost use Rattle.bn_network.specs.Controls.{lines_before};
ghost use Rattle.bn_cell.specs.Sizes.{IsCellSize};
ghost use Rattle.bn_control.specs.Names.{listed, state_of};
ghost use Rattle.bn_reply_layout.specs.ControlText.{column_line, column_lines, command_text, control_line_line};
ghost use Rattle.bn_reply_layout.specs.ControlText.{names_text, numbers_text, output_text, state_text};
ghost use Rattle.bn_reply_layout.specs.Made.{HasStateName};

use crate::sizes::{history_of, letters_of};
use bn_base::push_u64;
use bn_cell::line_of;
use bn_control::{StateName, Symbols};
use bn_lists::NoMemory;
use bn_quad::QuadNames;
use bn_reply::push;
use bn_reply_boards::{counts_of_table, push_cell_line, push_control_line};
use bn_table::Table;
use std::cmp::Reverse;

/// Appends the lines of the control's columns, which represent these states in their order.
pub(crate) fn push_columns(
    text: &mut Vec<u8>,
    names: &QuadNames,
    states: &[StateName],
) -> Result<(), NoMemory>
    requires { All (HasStateName (length names.now.states)) states.now }
    ensures { OnOk result (text.new.items ≡ text.old.items
        ++ column_lines names.now.states 0 (map state_of states.now)) }
{
    for (column, state) in states.iter().enumerate() {
        push_column(text, names, column as u64, *state)?;
    }
    Ok(())
}

// Appends the line of a column of the control.
fn push_column(
    text: &mut Vec<u8>,
    names: &QuadNames,
    column: u64,
    state: StateName,
) -> Result<(), NoMemory>
    requires { HasStateName (length names.now.states) state }
    ensures { OnOk result (text.new.items ≡ text.old.items ++ column_line names.now.states column (state_of state)) }
{
    push(text, b"column ")?;
    push_u64(text, column)?;
    push(text, b" of control ")?;
    push_state(text, names, state)?;
    push(text, b"\n")
}

// Appends the name of a state of the control.
fn push_state(text: &mut Vec<u8>, names: &QuadNames, state: StateName) -> Result<(), NoMemory>
    requires { HasStateName (length names.now.states) state }
    ensures { OnOk result (text.new.items ≡ text.old.items ++ state_text names.now.states (state_of state)) }
{
    match state {
        StateName::Begin => push(text, b"begin"),
        StateName::End => push(text, b"end"),
        StateName::Reads { state, before, .. } => push_reads(text, names.state(state), before),
        StateName::Shifts { quadruple, tape } => push_shifts(text, quadruple, tape),
        StateName::Writes {
            state,
            tape: Reverse(tape),
            rest,
        } => push_writes(text, names.state(state), tape, rest),
    }
}

// Appends the name of a state that waits for a read, in the state of this name, after these symbols.
fn push_reads(text: &mut Vec<u8>, name: &[u8], before: Symbols) -> Result<(), NoMemory>
    ensures { OnOk result (text.new.items ≡ text.old.items
        ++ (codes "reads " ++ (name.now ++ numbers_text (listed before)))) }
{
    push(text, b"reads ")?;
    push(text, name)?;
    push_symbols(text, before)
}

// Appends the name of a state that waits for a shift.
fn push_shifts(text: &mut Vec<u8>, quadruple: u32, tape: u32) -> Result<(), NoMemory>
    ensures { OnOk result (text.new.items ≡ text.old.items
        ++ (codes "shifts " ++ (decimal quadruple ++ (codes " " ++ decimal tape)))) }
{
    push(text, b"shifts ")?;
    push_u64(text, u64::from(quadruple))?;
    push(text, b" ")?;
    push_u64(text, u64::from(tape))
}

// Appends the name of a state that waits for a write, on the way into the state of this name, before these symbols.
fn push_writes(text: &mut Vec<u8>, name: &[u8], tape: u32, rest: Symbols) -> Result<(), NoMemory>
    ensures { OnOk result (text.new.items ≡ text.old.items
        ++ (codes "writes " ++ (name.now ++ (codes " " ++ (decimal tape ++ numbers_text (listed rest)))))) }
{
    push(text, b"writes ")?;
    push(text, name)?;
    push(text, b" ")?;
    push_u64(text, u64::from(tape))?;
    push_symbols(text, rest)
}

// Appends some symbols by their numbers, a space before each.
fn push_symbols(text: &mut Vec<u8>, symbols: Symbols) -> Result<(), NoMemory>
    ensures { OnOk result (text.new.items ≡ text.old.items ++ numbers_text (listed symbols)) }
{
    match symbols {
        Symbols::Empty => Ok(()),
        Symbols::Leading(first, None) => push_number(text, first),
        Symbols::Leading(first, Some(second)) => {
            push_number(text, first)?;
            push_number(text, second)
        }
    }
}

// Appends a space and a number.
fn push_number(text: &mut Vec<u8>, number: u32) -> Result<(), NoMemory>
    ensures { OnOk result (text.new.items ≡ text.old.items ++ numbers_text (number ∷ [])) }
{
    push(text, b" ")?;
    push_u64(text, u64::from(number))
}

/// Appends the lines of the control's ports, for a table's reversible machine.
pub(crate) fn push_control_lines(text: &mut Vec<u8>, table: &Table) -> Result<(), NoMemory>
    ensures { OnOk result (text.new.items ≡ text.old.items
        ++ flat_map (control_line_line (symbols_of table.now.machine))
        (range_with_len 0 (lines_before (symbols_of table.now.machine) 3))) }
{
    let (letters, history) = (letters_of(table), history_of(table));
    for line in 0..letters + history + letters + 10 {
        push_line(text, table, line)?;
    }
    Ok(())
}

// Appends the line of a port of the control.
fn push_line(text: &mut Vec<u8>, table: &Table, line: u32) -> Result<(), NoMemory>
    requires { line < lines_before (symbols_of table.now.machine) 3 }
    ensures { OnOk result (text.new.items ≡ text.old.items
        ++ control_line_line (symbols_of table.now.machine) line) }
{
    push(text, b"line ")?;
    push_u64(text, u64::from(line))?;
    push(text, b" of control in ")?;
    push_names(text, table, line)
}

// Appends the names of a port of the control, in and out.
fn push_names(text: &mut Vec<u8>, table: &Table, line: u32) -> Result<(), NoMemory>
    requires { line < lines_before (symbols_of table.now.machine) 3 }
    ensures { OnOk result (text.new.items ≡ text.old.items ++ names_text (symbols_of table.now.machine) line) }
{
    push_control_line(text, counts_of_table(table), line)?;
    push(text, b" out ")?;
    push_output(text, table, line)?;
    push(text, b"\n")
}

// Appends the name of an output port of the control.
fn push_output(text: &mut Vec<u8>, table: &Table, line: u32) -> Result<(), NoMemory>
    requires { line < lines_before (symbols_of table.now.machine) 3 }
    ensures { OnOk result (text.new.items ≡ text.old.items ++ output_text (symbols_of table.now.machine) line) }
{
    let (letters, history) = (letters_of(table), history_of(table));
    if line == 0 {
        push(text, b"End")
    } else if line < letters + 4 {
        push_command(text, letters, line - 1, 1)
    } else if line < letters + history + 7 {
        push_command(text, history, line - (letters + 4), 2)
    } else {
        push_command(text, letters, line - (letters + history + 7), 3)
    }
}

// Appends the name of the port by which the control sends a tape of this many symbols the command with this number.
fn push_command(text: &mut Vec<u8>, symbols: u32, place: u32, tape: u32) -> Result<(), NoMemory>
    requires size { IsCellSize symbols }
    requires place { place < symbols + 3 }
    ensures { OnOk result (text.new.items ≡ text.old.items ++ command_text symbols place tape) }
{
    push_cell_line(text, line_of(symbols, place))?;
    push(text, b" ")?;
    push_u64(text, u64::from(tape))
}
