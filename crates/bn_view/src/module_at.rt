//! The module that holds the signal of a circuit.

ghost use Rattle.std.specs.Prelude.{◌≡◌, ℕ};
ghost use Rattle.bn_network.specs.Controls.{symbol_count};
ghost use Rattle.bn_network.specs.Networks.{IsTape};
ghost use Rattle.bn_boards.specs.Layouts.{symbol_count_at};
ghost use Rattle.bn_view.specs.Modules.{IsModuleAt};

use crate::layers::ModuleAt;
use bn_board::{Board, Located};
use bn_cell::line_of;
use bn_quad::QuadMachine;

// The module that holds the signal of a circuit of this machine.
pub(crate) fn module_at(board: &Board, machine: &QuadMachine) -> ModuleAt
    requires { (t : ℕ) → IsTape t → symbol_count_at board.now.layout t ≡ symbol_count machine.now t }
    ensures { IsModuleAt board.now.layout board.now.config.place result }
{
    match board.located() {
        Located::Control { line: Some(line) } => ModuleAt::ControlLine(line),
        Located::Control { line: None } => ModuleAt::ControlInside,
        Located::Cell {
            tape,
            position,
            line: Some(line),
        } => ModuleAt::CellLine {
            tape,
            position,
            line: line_of(machine.symbols(tape), line),
        },
        Located::Cell {
            tape,
            position,
            line: None,
        } => ModuleAt::CellInside { tape, position },
        Located::Outside => ModuleAt::Outside,
    }
}
