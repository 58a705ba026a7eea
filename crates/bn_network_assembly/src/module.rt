//! Modules of a network.

use bn_cell::CellTable;
use bn_control::Control;
use bn_element::Element;

/// A module of a network (own to this project): the finite control, or a tape cell.
#[derive(Drop)]
pub enum Module {
    /// The finite control.
    Control(Control),
    /// A tape cell.
    Cell(CellTable),
}

impl Element for Module {
    ghost use Rattle.bn_network_assembly.specs.Modules.{module_table};
    ghost use Rattle.bn_network_assembly.specs.Reversible.{modules-reversible};

    ghost table = { module_table };

    ghost reversible = { modules-reversible };

    fn lines_in(&self) -> u32 {
        match self {
            Module::Control(control) => control.rsm().lines_in(),
            Module::Cell(cell) => cell.lines_in(),
        }
    }

    fn lines_out(&self) -> u32 {
        match self {
            Module::Control(control) => control.rsm().lines_out(),
            Module::Cell(cell) => cell.lines_out(),
        }
    }

    fn states(&self) -> u32 {
        match self {
            Module::Control(control) => control.rsm().states(),
            Module::Cell(cell) => cell.states(),
        }
    }

    fn go(&self, state: u32, line: u32) -> Option<(u32, u32)> {
        match self {
            Module::Control(control) => control.rsm().go(state, line),
            Module::Cell(cell) => cell.go(state, line),
        }
    }

    fn back(&self, state: u32, line: u32) -> Option<(u32, u32)> {
        match self {
            Module::Control(control) => control.rsm().back(state, line),
            Module::Cell(cell) => cell.back(state, line),
        }
    }
}
