//! The lines of the text on a circuit's modules.

ghost use Rattle.std.specs.Prelude.{◌≡◌, ℕ, ◌+◌, ◌*◌, ◌<◌, ◌≤◌, ◌^◌, ◌++◌, ◌∷◌, [], pos, ◌-ℤ◌, OnOk};
ghost use Rattle.std.specs.List.{flat_map};
ghost use Rattle.bn_network.specs.Limits.{AreSmall};
ghost use Rattle.bn_network.specs.Networks.{cell_size, cells_in, first_cell};
ghost use Rattle.bn_network_assembly.specs.Assembled.{limits_of};
ghost use Rattle.bn_reply_layout.specs.Modules.{cell_bank, cell_banks, shape};
ghost use Rattle.bn_reply_layout.specs.ModuleText.{bank_text, module_line, module_lines, module_text};

use crate::bank::{Bank, ModuleName};
use bn_base::{MOST_COUNT, push_u64};
use bn_circuits::MOST_ELEMENTS;
use bn_lists::NoMemory;
use bn_network::MOST_SYMBOLS;
use bn_network_assembly::Windows;
use bn_reply::{push, push_counted, push_position};

/// Consecutive cells of a tape.
#[derive(Clone, Copy)]
struct Row {
    tape: u32,
    symbols: u32,
    left: u32,
    number: u32,
    first: u64,
    count: u32,
}

/// Appends the lines of the elements and of the modules of a circuit in this window, where tapes 1 and 3 have this many
/// letters, tape 2 this many symbols, and the control this many states.
pub(crate) fn push_modules(
    text: &mut Vec<u8>,
    windows: &Windows,
    letters: u32,
    history: u32,
    states: u64,
) -> Result<(), NoMemory>
    requires small { AreSmall (limits_of windows.now) }
    requires letters { letters ≤ MOST_SYMBOLS }
    requires history { history ≤ MOST_SYMBOLS }
    requires states { states ≤ MOST_ELEMENTS }
    ensures { OnOk result (text.new.items ≡ text.old.items
        ++ module_lines (shape (limits_of windows.now) (letters ∷ history ∷ letters ∷ []) states)) }
{
    let lines = letters + history + letters + 10;
    let one = states * (u64::from(lines) + 1);
    let two = one + row_size(windows.cells(1), letters);
    let three = two + row_size(windows.cells(2), history);
    let elements = three + row_size(windows.cells(3), letters);
    let modules = windows.first_cell(3) + windows.cells(3);
    push_counted(text, b"elements ", elements)?;
    push_counted(text, b"modules ", u64::from(modules))?;
    push_control(text, states, lines)?;
    push_cells(text, &row_of(windows, 1, letters, windows.left1, one))?;
    push_cells(text, &row_of(windows, 2, history, 0, two))?;
    push_cells(text, &row_of(windows, 3, letters, 0, three))
}

// Appends the line of the control, with this many states and ports.
fn push_control(text: &mut Vec<u8>, states: u64, lines: u32) -> Result<(), NoMemory>
    ensures { OnOk result (text.new.items ≡ text.old.items ++ module_line (record {
      number = 0;
      name = ModuleName.Control;
      first = 0;
      columns = states;
      lines = lines;
    })) }
{
    let bank = Bank {
        number: 0,
        name: ModuleName::Control,
        first: 0,
        columns: states,
        lines,
    };
    push_module(text, &bank)
}

// The cells of a tape with this many symbols, of which this many are left of position 0, from this element on.
fn row_of(windows: &Windows, tape: u32, symbols: u32, left: u32, first: u64) -> Row
    requires low { 1 ≤ tape }
    requires high { tape ≤ 3 }
    requires small { AreSmall (limits_of windows.now) }
    ensures { result ≡ record {
      tape = tape;
      symbols = symbols;
      left = left;
      number = first_cell (limits_of windows.now) tape;
      first = first;
      count = cells_in (limits_of windows.now) tape;
    } }
{
    Row {
        tape,
        symbols,
        left,
        number: windows.first_cell(tape),
        first,
        count: windows.cells(tape),
    }
}

// The number of elements of one cell of a tape with this many symbols.
#[tactic(auto, using(crate::proofs::SizeLemmas::cell_small))]
fn cell_size(symbols: u32) -> u64
    requires { symbols ≤ MOST_SYMBOLS }
    ensures size { result ≡ cell_size symbols }
    ensures few { result ≤ 8002 * 8011 }
{
    let columns = u64::from(2 * symbols);
    columns * (columns + 9)
}

// The number of elements of this many cells of a tape with this many symbols.
#[tactic(auto, using(crate::proofs::SizeLemmas::row_small))]
fn row_size(count: u32, symbols: u32) -> u64
    requires count { count ≤ 2 * MOST_COUNT + 1 }
    requires symbols { symbols ≤ MOST_SYMBOLS }
    ensures size { result ≡ count * cell_size symbols }
    ensures few { result ≤ 2097153 * (8002 * 8011) }
{
    u64::from(count) * cell_size(symbols)
}

// Appends the lines of the cells of a tape, from left to right.
fn push_cells(text: &mut Vec<u8>, row: &Row) -> Result<(), NoMemory>
    requires symbols { row.now.symbols ≤ MOST_SYMBOLS }
    requires left { row.now.left ≤ MOST_COUNT }
    requires count { row.now.count ≤ 2 * MOST_COUNT + 1 }
    requires number { row.now.number ≤ 4 * MOST_COUNT + 3 }
    requires first { row.now.first ≤ 2 ^ 62 }
    ensures { OnOk result (text.new.items ≡ text.old.items ++ flat_map module_line
        (cell_banks row.now.tape row.now.symbols row.now.left row.now.number row.now.first row.now.count)) }
{
    for cell in 0..row.count {
        let bank = bank_of(row, cell);
        push_module(text, &bank)?;
    }
    Ok(())
}

// The bank of a cell, counted from the left.
fn bank_of(row: &Row, cell: u32) -> Bank
    requires symbols { row.now.symbols ≤ MOST_SYMBOLS }
    requires left { row.now.left ≤ MOST_COUNT }
    requires cell { cell ≤ 2 * MOST_COUNT + 1 }
    requires number { row.now.number ≤ 4 * MOST_COUNT + 3 }
    requires first { row.now.first ≤ 2 ^ 62 }
    ensures { result ≡ cell_bank row.now.tape row.now.symbols row.now.left row.now.number row.now.first cell }
{
    Bank {
        number: row.number + cell,
        name: ModuleName::Cell {
            tape: row.tape,
            position: i64::from(cell) - i64::from(row.left),
        },
        first: row.first + row_size(cell, row.symbols),
        columns: u64::from(2 * row.symbols),
        lines: 2 * row.symbols + 8,
    }
}

// Appends the line of a module.
fn push_module(text: &mut Vec<u8>, bank: &Bank) -> Result<(), NoMemory>
    ensures { OnOk result (text.new.items ≡ text.old.items ++ module_line bank.now) }
{
    push(text, b"module ")?;
    push_u64(text, u64::from(bank.number))?;
    push(text, b" ")?;
    push_name(text, bank.name)?;
    push_bank(text, bank)
}

// Appends the name of a module.
fn push_name(text: &mut Vec<u8>, name: ModuleName) -> Result<(), NoMemory>
    ensures { OnOk result (text.new.items ≡ text.old.items ++ module_text name) }
{
    match name {
        ModuleName::Control => push(text, b"control"),
        ModuleName::Cell { tape, position } => {
            push(text, b"tape ")?;
            push_u64(text, u64::from(tape))?;
            push(text, b" cell ")?;
            push_position(text, position)
        }
    }
}

// Appends the first element of a module's bank, and its numbers of columns and ports.
fn push_bank(text: &mut Vec<u8>, bank: &Bank) -> Result<(), NoMemory>
    ensures { OnOk result (text.new.items ≡ text.old.items ++ bank_text bank.now) }
{
    push(text, b" from ")?;
    push_u64(text, bank.first)?;
    push(text, b" columns ")?;
    push_u64(text, bank.columns)?;
    push(text, b" lines ")?;
    push_u64(text, u64::from(bank.lines))?;
    push(text, b"\n")
}
