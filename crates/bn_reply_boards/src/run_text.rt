//! The text of a run of a circuit.

ghost use Rattle.std.specs.Prelude.{◌≡◌, ℕ, ◌<◌, ◌≤◌, ◌++◌, ◌∷◌, [], codes, drop, length, IfOk, OnOk, OnErr};
ghost use Rattle.bn_netlist_laws.specs.Sentences.{line_of_place, line_text};
ghost use Rattle.bn_bennett.specs.Translation.{name_of};
ghost use Rattle.bn_bennett.specs.Meaning.{machine_state_by};
ghost use Rattle.bn_bennett.specs.declared.translated.MachineState.TheVariants.{AtState};
ghost use Rattle.bn_boards.specs.Layouts.{symbol_count_at};
ghost use Rattle.bn_boards.specs.Flats.{Flat};
ghost use Rattle.bn_reply.specs.Fronts.{GrewInPart};
ghost use Rattle.bn_reply_relations.specs.RunText.{exit_line, output_from, output_line, quadruple_line, rest_text};
ghost use Rattle.bn_reply_relations.specs.RunText.{run_text};
ghost use Rattle.bn_reply_relations.specs.RunText.{state_text, stuck_line, tape_lines, window_line};
ghost use Rattle.bn_reply_boards.specs.Shown.{HasNames, HaveLetters, IsKnownStuck, IsShown};

use crate::tape_text::{push_output, push_tapes};
use bn_base::push_u64;
use bn_bennett::{MachineState, Translated};
use bn_board::{Board, Exit, Spelled};
use bn_circuits::{Line, Place};
use bn_element::{EAST, NORTH, SOUTH};
use bn_lists::NoMemory;
use bn_machine::Side;
use bn_reply::{push, push_counted, push_letters};
use bn_table::Table;
use std::alloc::Global;

/// The text of a run that has reached the configuration of this circuit, by this exit, after this many steps of the
/// machine of quadruples. The table has a name for each state and symbol that is printed.
pub fn text_of_run(
    alloc: Global,
    table: &Table,
    translated: &Translated,
    board: &Board,
    exit: Exit,
    quadruple_steps: u64,
) -> Result<Vec<u8>, NoMemory>
    requires names { HasNames table.now translated.now exit }
    requires one { symbol_count_at board.now.layout 1 ≡ table.now.machine.symbols }
    requires three { symbol_count_at board.now.layout 3 ≡ table.now.machine.symbols }
    ensures { IfOk result (λ text. (f : Flat) → IsShown f translated.now board.now
        → text.items ≡ run_text table.now f board.now.config quadruple_steps exit) }
{
    let mut text = Vec::new(alloc);
    push_counted(&mut text, b"elements ", u64::from(board.len()))?;
    push_exit(&mut text, table, translated, board.place(), exit)?;
    push_counted(&mut text, b"steps ", board.steps())?;
    push_rest(alloc, &mut text, table, board, exit, quadruple_steps)?;
    Ok(text)
}

/// Appends the line that says where the signal of a circuit is: inside, about to enter a port of an element, or by
/// which exit it has left. The table has a name for each state and symbol that is printed. After `NoMemory` a prefix
/// of the line may follow the text.
pub fn push_exit(
    text: &mut Vec<u8>,
    table: &Table,
    translated: &Translated,
    place: Place,
    exit: Exit,
) -> Result<(), NoMemory>
    requires line { (line_of_place place).line < 4 }
    requires names { HasNames table.now translated.now exit }
    ensures added { OnOk result ((f : Flat) → f.translation ≡ translated.now
        → text.new.items ≡ text.old.items ++ exit_line table.now f place exit) }
    ensures refused { OnErr result ((f : Flat) → f.translation ≡ translated.now →
        GrewInPart text.old.items text.new.items (exit_line table.now f place exit)) }
{
    match exit {
        Exit::Inside => push_inside(text, line_of(place)),
        Exit::End => push(text, b"exit end\n"),
        Exit::Stuck { state, symbol } => push_stuck(text, table, translated, state, symbol),
        Exit::Window { tape, side } => push_window(text, tape, side),
        Exit::Unnamed => Ok(()),
    }
}

// The line at a place.
fn line_of(place: Place) -> Line
    ensures { result ≡ line_of_place place }
{
    match place {
        Place::Enter { element, line } | Place::Left { element, line } => Line { element, line },
    }
}

/// Appends the line of a signal that is inside, about to enter this port. After `NoMemory` a prefix of what is appended
/// may follow the text.
pub fn push_inside(text: &mut Vec<u8>, line: Line) -> Result<(), NoMemory>
    requires { line.line < 4 }
    ensures added { OnOk result (text.new.items ≡ text.old.items ++ (codes "inside " ++ (line_text line ++ 10 ∷ []))) }
    ensures refused { OnErr result (GrewInPart text.old.items text.new.items
        (codes "inside " ++ (line_text line ++ 10 ∷ []))) }
{
    push(text, b"inside ")?;
    push_u64(text, u64::from(line.element))?;
    match line.line {
        NORTH => push(text, b".n\n"),
        EAST => push(text, b".e\n"),
        SOUTH => push(text, b".s\n"),
        _ => push(text, b".w\n"),
    }
}

// Appends the line of a machine that is stuck in a state of the machine of quadruples at a symbol.
fn push_stuck(
    text: &mut Vec<u8>,
    table: &Table,
    translated: &Translated,
    state: u32,
    symbol: u32,
) -> Result<(), NoMemory>
    requires { IsKnownStuck table.now translated.now state symbol }
    ensures added { OnOk result (text.new.items ≡ text.old.items ++ stuck_line table.now
        (state_text table.now (machine_state_by translated.now.final_state (name_of translated.now state))) symbol) }
    ensures refused { OnErr result (GrewInPart text.old.items text.new.items (stuck_line table.now
        (state_text table.now (machine_state_by translated.now.final_state (name_of translated.now state))) symbol)) }
{
    push(text, b"exit stuck ")?;
    push_state(text, table, translated, state)?;
    push(text, b" ")?;
    push_letters(text, table, &[symbol])?;
    push(text, b"\n")
}

// Appends the name of the table's state that a state of the machine of quadruples represents.
fn push_state(
    text: &mut Vec<u8>,
    table: &Table,
    translated: &Translated,
    state: u32,
) -> Result<(), NoMemory>
    requires state { state < translated.now.machine.states }
    requires named { (j : ℕ) → machine_state_by translated.now.final_state (name_of translated.now state) ≡ AtState j
        → j < table.now.machine.states }
    ensures added { OnOk result (text.new.items ≡ text.old.items
        ++ state_text table.now (machine_state_by translated.now.final_state (name_of translated.now state))) }
    ensures refused { OnErr result (text.new.items ≡ text.old.items) }
{
    match translated.machine_state_of(state) {
        MachineState::AtState(at) => push(text, table.state_name(at)),
        MachineState::Within(_) => Ok(()),
    }
}

/// Appends the line of a head that would leave a tape's window. After `NoMemory` a prefix of the line may follow the
/// text.
pub fn push_window(text: &mut Vec<u8>, tape: u32, side: Side) -> Result<(), NoMemory>
    ensures added { OnOk result (text.new.items ≡ text.old.items ++ window_line tape side) }
    ensures refused { OnErr result (GrewInPart text.old.items text.new.items (window_line tape side)) }
{
    push(text, b"exit window ")?;
    push_u64(text, u64::from(tape))?;
    match side {
        Side::Left => push(text, b" left\n"),
        Side::Right => push(text, b" right\n"),
    }
}

// Appends the lines after that of the steps.
fn push_rest(
    alloc: Global,
    text: &mut Vec<u8>,
    table: &Table,
    board: &Board,
    exit: Exit,
    quadruple_steps: u64,
) -> Result<(), NoMemory>
    requires one { symbol_count_at board.now.layout 1 ≡ table.now.machine.symbols }
    requires three { symbol_count_at board.now.layout 3 ≡ table.now.machine.symbols }
    ensures { OnOk result ((f : Flat) → f.layout ≡ board.now.layout
        → text.new.items ≡ text.old.items ++ rest_text table.now f board.now.config quadruple_steps exit) }
{
    let shown = board.cells_of(alloc)?;
    match exit {
        Exit::End => push_end(alloc, text, table, &shown, quadruple_steps),
        _ => push_tapes(text, table, &shown),
    }
}

// Appends the lines after that of the steps, if the machine has halted.
fn push_end(
    alloc: Global,
    text: &mut Vec<u8>,
    table: &Table,
    shown: &Spelled,
    quadruple_steps: u64,
) -> Result<(), NoMemory>
    requires one { HaveLetters table.now 1 shown.now.one.cells }
    requires three { HaveLetters table.now 3 shown.now.three.cells }
    requires some { 1 ≤ length shown.now.three.cells }
    ensures { OnOk result (text.new.items ≡ text.old.items ++ (quadruple_line quadruple_steps
        ++ (tape_lines table.now shown.now.one shown.now.two shown.now.three
        ++ output_line table.now (output_from (drop 1 shown.now.three.cells))))) }
{
    push_counted(text, b"quadruple steps ", quadruple_steps)?;
    push_tapes(text, table, shown)?;
    push_output(alloc, text, table, shown.three.cells.as_slice())
}
