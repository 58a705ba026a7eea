//! The text of the layers of a table's circuit.

ghost use Rattle.std.specs.Prelude.{◌≡◌, ◌++◌, ◌<◌, IfOk, OnOk};
ghost use Rattle.bn_netlist_laws.specs.Sentences.{line_of_place};
ghost use Rattle.bn_quad.specs.Quadruples.{IsQuadMachine};
ghost use Rattle.bn_qtable.specs.Rows.{table_of};
ghost use Rattle.bn_board.specs.Flattened.{IsBoardKept};
ghost use Rattle.bn_view.specs.Viewed.{IsLaidOut};
ghost use Rattle.bn_reply_views.specs.ViewText.{module_line};
ghost use Rattle.bn_reply_looks.specs.Built.{AreNames, IsExitText, ShowsRun};
ghost use Rattle.bn_reply_looks.specs.LookText.{look_text, state_line};

use bn_board::Board;
use bn_circuits::Place;
use bn_lists::NoMemory;
use bn_quad::{QuadNames, Uniform};
use bn_reply::push;
use bn_reply_builds::{
    TableNames, counts_of_machine, outcome_of, push_outcome, push_state, push_tapes,
};
use bn_reply_views::{push_element, push_module};
use bn_view::{BoardLayers, ModuleAt, view_board};
use std::alloc::Global;

/// The text of the layers of a table's circuit, anywhere in its run: six lines. The contract also states what holds of
/// every circuit afterwards.
pub(crate) fn build_text(
    alloc: Global,
    machine: &Uniform,
    names: &QuadNames,
    board: &Board,
) -> Result<Vec<u8>, NoMemory>
    requires names { AreNames machine.now names.now }
    requires laid { IsLaidOut machine.now board.now.layout }
    ensures shows { IfOk result (λ text. ShowsRun machine.now names.now board.now text.items) }
    ensures kept { IsBoardKept board.now }
{
    let layers = view_board(alloc, board, machine.machine())?;
    let exit = exit_text(alloc, machine, names, board)?;
    let names = TableNames {
        machine: machine.machine(),
        names,
    };
    look_text(alloc, &names, exit.as_slice(), &layers)
}

// The line of the exit by which the signal has left a table's circuit; nothing if it is inside.
fn exit_text(
    alloc: Global,
    machine: &Uniform,
    names: &QuadNames,
    board: &Board,
) -> Result<Vec<u8>, NoMemory>
    requires { AreNames machine.now names.now }
    ensures { IfOk result (λ text. IsExitText (table_of machine.now names.now) board.now text.items) }
{
    let mut text = Vec::new(alloc);
    if let Place::Left { .. } = board.place() {
        let shown = board.cells_of(alloc)?;
        let outcome = outcome_of(alloc, machine, board, &shown)?;
        let names = TableNames {
            machine: machine.machine(),
            names,
        };
        push_outcome(&mut text, &names, outcome)?;
    }
    Ok(text)
}

// The six lines of layers, with this line of the exit.
fn look_text(
    alloc: Global,
    names: &TableNames<'_>,
    exit: &[u8],
    layers: &BoardLayers,
) -> Result<Vec<u8>, NoMemory>
    requires valid { IsQuadMachine names.now.machine.now }
    requires names { AreNames names.now.machine.now names.now.names.now }
    requires line { (line_of_place layers.now.place).line < 4 }
    ensures { IfOk result (λ text. text.items
        ≡ look_text (table_of names.now.machine.now names.now.names.now) exit.now layers.now) }
{
    let mut text = Vec::new(alloc);
    push_element(&mut text, layers.place, layers.steps)?;
    push_where(&mut text, names, exit, layers.module)?;
    push_state_line(&mut text, names, layers.state)?;
    push_tapes(&mut text, names, &layers.tapes)?;
    Ok(text)
}

// Appends the line of the module that holds the signal, or of its exit.
fn push_where(
    text: &mut Vec<u8>,
    names: &TableNames<'_>,
    exit: &[u8],
    signal: ModuleAt,
) -> Result<(), NoMemory>
    requires valid { IsQuadMachine names.now.machine.now }
    requires names { AreNames names.now.machine.now names.now.names.now }
    ensures { OnOk result (text.new.items
        ≡ text.old.items ++ module_line names.now.machine.now.symbols exit.now signal) }
{
    match signal {
        ModuleAt::Outside => push(text, exit),
        inside => push_module(text, counts_of_machine(names.machine), inside),
    }
}

// Appends the line of a state of the machine.
fn push_state_line(text: &mut Vec<u8>, names: &TableNames<'_>, state: u32) -> Result<(), NoMemory>
    requires { AreNames names.now.machine.now names.now.names.now }
    ensures { OnOk result (text.new.items
        ≡ text.old.items ++ state_line (table_of names.now.machine.now names.now.names.now) state) }
{
    push(text, b"quadruple ")?;
    push_state(text, names, state)?;
    push(text, b"\n")
}
