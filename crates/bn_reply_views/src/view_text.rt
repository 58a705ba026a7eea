//! The text of a view of a circuit.

ghost use Rattle.std.specs.Prelude.{◌≡◌, ℕ, ◌<◌, ◌++◌, ◌∷◌, [], List, codes, length, Some, IfOk, OnOk, OnErr};
ghost use Rattle.std.specs.Prelude.{slice_get};
ghost use Rattle.bn_netlist_laws.specs.Sentences.{line_of_place};
ghost use Rattle.bn_bennett_laws.specs.List.{symbols_of};
ghost use Rattle.bn_bennett.specs.Translation.{IsTranslation};
ghost use Rattle.bn_boards.specs.Flats.{Flat};
ghost use Rattle.bn_reply.specs.Fronts.{GrewInPart};
ghost use Rattle.bn_reply.specs.Lines.{line};
ghost use Rattle.bn_reply_boards.specs.LineNames.{AreFew, counts_in};
ghost use Rattle.bn_reply_boards.specs.Shown.{HasNames};
ghost use Rattle.bn_reply_relations.specs.RunText.{exit_line};
ghost use Rattle.bn_reply_views.specs.ViewText.{cell_text, element_line, machine_line, machine_text, module_line};
ghost use Rattle.bn_reply_views.specs.ViewText.{stage_text, view_text};
ghost use Rattle.bn_reply_views.specs.Showing.{CanBeWritten, IsNamedState};

use crate::place_text::push_place;
use bn_base::push_u64;
use bn_bennett::{MachineState, Stage, Translated, names};
use bn_circuits::Place;
use bn_lists::NoMemory;
use bn_quad::QuadNames;
use bn_reply::{push, push_position};
use bn_reply_boards::{
    SymbolCounts, counts_of_table, push_cell_line, push_control_line, push_exit, push_tapes,
};
use bn_table::Table;
use bn_view::{Layers, ModuleAt};
use std::alloc::Global;

// The text of a view.
pub(crate) fn view_text(
    alloc: Global,
    table: &Table,
    translated: &Translated,
    layers: &Layers,
) -> Result<Vec<u8>, NoMemory>
    requires translation { IsTranslation table.now.machine translated.now }
    requires layers { CanBeWritten table.now translated.now layers.now }
    ensures { IfOk result (λ text. (f : Flat) → f.translation ≡ translated.now
        → text.items ≡ view_text table.now f layers.now) }
{
    let names = names(alloc, table, translated)?;
    let mut text = Vec::new(alloc);
    push_element(&mut text, layers.place, layers.steps)?;
    push_where(&mut text, table, translated, layers)?;
    push_state(&mut text, &names, layers.state)?;
    push_tapes(&mut text, table, &layers.tapes)?;
    push_machine(&mut text, table, layers)?;
    Ok(text)
}

/// Appends the line with the place of the signal and the number of steps. After `NoMemory` a prefix of the line may be
/// at the end of the text.
pub fn push_element(text: &mut Vec<u8>, place: Place, steps: u64) -> Result<(), NoMemory>
    requires { (line_of_place place).line < 4 }
    ensures added { OnOk result (text.new.items ≡ text.old.items ++ element_line place steps) }
    ensures refused { OnErr result (GrewInPart text.old.items text.new.items (element_line place steps)) }
{
    push(text, b"element ")?;
    push_place(text, place)?;
    push(text, b" steps ")?;
    push_u64(text, steps)?;
    push(text, b"\n")
}

// Appends the line of the module that holds the signal, or of the exit by which it has left.
fn push_where(
    text: &mut Vec<u8>,
    table: &Table,
    translated: &Translated,
    layers: &Layers,
) -> Result<(), NoMemory>
    requires line { (line_of_place layers.now.place).line < 4 }
    requires names { HasNames table.now translated.now layers.now.exit }
    ensures { OnOk result ((f : Flat) → f.translation ≡ translated.now → text.new.items
        ≡ text.old.items ++ module_line (symbols_of table.now.machine)
        (exit_line table.now f layers.now.place layers.now.exit) layers.now.module) }
{
    match layers.module {
        ModuleAt::Outside => push_exit(text, table, translated, layers.place, layers.exit),
        inside => push_module(text, counts_of_table(table), inside),
    }
}

/// Appends the line of the module that holds the signal, for a machine whose tapes have this many symbols. Appends
/// nothing if the signal has left. After `NoMemory` a prefix of the line may be at the end of the text.
pub fn push_module(
    text: &mut Vec<u8>,
    counts: SymbolCounts,
    signal: ModuleAt,
) -> Result<(), NoMemory>
    requires { AreFew counts }
    ensures added { OnOk result (text.new.items ≡ text.old.items ++ module_line (counts_in counts) [] signal) }
    ensures refused { OnErr result (GrewInPart text.old.items text.new.items
        (module_line (counts_in counts) [] signal)) }
{
    match signal {
        ModuleAt::ControlLine(line) => {
            push(text, b"module control line ")?;
            push_control_line(text, counts, line)?;
            push(text, b"\n")
        }
        ModuleAt::ControlInside => push(text, b"module control inside\n"),
        ModuleAt::CellLine {
            tape,
            position,
            line,
        } => {
            push_cell(text, tape, position)?;
            push(text, b" line ")?;
            push_cell_line(text, line)?;
            push(text, b"\n")
        }
        ModuleAt::CellInside { tape, position } => {
            push_cell(text, tape, position)?;
            push(text, b" inside\n")
        }
        ModuleAt::Outside => Ok(()),
    }
}

// Appends the place of a cell.
fn push_cell(text: &mut Vec<u8>, tape: u32, position: i64) -> Result<(), NoMemory>
    ensures added { OnOk result (text.new.items ≡ text.old.items ++ cell_text tape position) }
    ensures refused { OnErr result (GrewInPart text.old.items text.new.items (cell_text tape position)) }
{
    push(text, b"module tape ")?;
    push_u64(text, u64::from(tape))?;
    push(text, b" cell ")?;
    push_position(text, position)
}

// Appends the line of a state of the machine of quadruples.
fn push_state(text: &mut Vec<u8>, names: &QuadNames, state: u32) -> Result<(), NoMemory>
    requires { state < length names.now.states }
    ensures { OnOk result ((name : List ℕ) → slice_get names.now.states state ≡ Some name
        → text.new.items ≡ text.old.items ++ line (codes "quadruple " ∷ name ∷ [])) }
{
    push(text, b"quadruple ")?;
    push(text, names.state(state))?;
    push(text, b"\n")
}

// Appends the line of the one-tape machine.
fn push_machine(text: &mut Vec<u8>, table: &Table, layers: &Layers) -> Result<(), NoMemory>
    requires { IsNamedState table.now layers.now.machine }
    ensures { OnOk result (text.new.items ≡ text.old.items
        ++ machine_line table.now layers.now.stage layers.now.machine layers.now.machine_step) }
{
    push(text, b"machine ")?;
    push_stage(text, layers.stage)?;
    push(text, b" ")?;
    push_machine_state(text, table, layers.machine)?;
    push(text, b" step ")?;
    push_u64(text, layers.machine_step)?;
    push(text, b"\n")
}

// Appends a stage.
fn push_stage(text: &mut Vec<u8>, stage: Stage) -> Result<(), NoMemory>
    ensures { OnOk result (text.new.items ≡ text.old.items ++ stage_text stage) }
{
    match stage {
        Stage::Compute => push(text, b"compute"),
        Stage::Copy => push(text, b"copy"),
        Stage::Retrace => push(text, b"retrace"),
    }
}

// Appends the one-tape machine's state, or the quintuple that is being applied.
fn push_machine_state(
    text: &mut Vec<u8>,
    table: &Table,
    state: MachineState,
) -> Result<(), NoMemory>
    requires { IsNamedState table.now state }
    ensures { OnOk result (text.new.items ≡ text.old.items ++ machine_text table.now state) }
{
    match state {
        MachineState::AtState(at) => {
            push(text, b"state ")?;
            push(text, table.state_name(at))
        }
        MachineState::Within(quintuple) => {
            push(text, b"quintuple ")?;
            push_u64(text, u64::from(quintuple))
        }
    }
}
