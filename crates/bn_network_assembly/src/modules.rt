//! The modules of a network.
ghost use Rattle.std.specs.Prelude.{◌≡◌, ℕ, ◌≤◌, [], ◌∷◌, ◌++◌, List, All, length, IfOk, OnOk};
ghost use Rattle.bn_cell.specs.Sizes.{IsCellSize};
ghost use Rattle.bn_network.specs.Controls.{symbol_count};
ghost use Rattle.bn_control.specs.Controlled.{IsWithinLimits};
ghost use Rattle.bn_network.specs.Limits.{AreSmall};
ghost use Rattle.bn_network_assembly.specs.Assembled.{limits_of};
ghost use Rattle.bn_network_assembly.specs.Rows.{IsRow, AreModules};

use crate::module::Module;
use crate::windows::Windows;
use bn_cell::CellTable;
use bn_control::Control;
use bn_lists::NoMemory;
use bn_quad::QuadMachine;
use std::alloc::Global;

// The modules of a network: the control, and each tape's cells.
pub(crate) fn network_modules(
    alloc: Global,
    control: Control,
    machine: &QuadMachine,
    windows: &Windows,
) -> Result<Vec<Module>, NoMemory>
    requires machine { IsWithinLimits machine.now }
    requires windows { AreSmall (limits_of windows.now) }
    ensures { IfOk result (λ v. AreModules machine.now (limits_of windows.now) control v.items) }
{
    let mut modules = Vec::new(alloc);
    modules.push(Module::Control(control))?;
    push_row(&mut modules, letters(machine, 1), windows.cells(1))?;
    push_row(&mut modules, letters(machine, 2), windows.cells(2))?;
    push_row(&mut modules, letters(machine, 3), windows.cells(3))?;
    Ok(modules)
}

// The number of symbols of a tape, counted from 1.
pub(crate) fn letters(machine: &QuadMachine, tape: u32) -> u32
    requires machine { IsWithinLimits machine.now }
    requires first { 1 ≤ tape }
    requires last { tape ≤ 3 }
    ensures letters { result ≡ symbol_count machine.now tape }
    ensures size { IsCellSize result }
{
    machine.symbols(tape)
}

// Adds a tape's cells for this number of symbols.
fn push_row(modules: &mut Vec<Module>, symbols: u32, count: u32) -> Result<(), NoMemory>
    requires { IsCellSize symbols }
    ensures { OnOk result (IsRow modules.old.items symbols count modules.new.items) }
{
    for _ in 0..count {
        modules.push(Module::Cell(CellTable { symbols }))?;
    }
    Ok(())
}
