//! The wires of a network.
ghost use Rattle.std.specs.Prelude.{◌≡◌, ℕ, ◌+◌, ◌-◌, ◌^◌, ◌<◌, ◌≤◌, List, [], ◌∷◌, ◌++◌, length, IfOk, OnOk};
ghost use Rattle.bn_control.specs.Controlled.{IsWithinLimits};
ghost use Rattle.bn_network.specs.Controls.{lines_before};
ghost use Rattle.bn_circuits.specs.Circuits.{line_at};
ghost use Rattle.bn_network.specs.Limits.{AreSmall};
ghost use Rattle.bn_network_assembly.specs.Assembled.{limits_of};
ghost use Rattle.bn_network_assembly.specs.WireLists.{bundle, joint, joints, tape_wires, wires_of_tape, network_wires};

use crate::windows::Windows;
use bn_circuits::{Line, Wire};
use bn_lists::NoMemory;
use bn_network::MOST_SYMBOLS;
use bn_quad::QuadMachine;
use std::alloc::Global;

// The wires of the network of a machine for these windows.
pub(crate) fn network_wires(
    alloc: Global,
    machine: &QuadMachine,
    windows: &Windows,
) -> Result<Vec<Wire>, NoMemory>
    requires machine { IsWithinLimits machine.now }
    requires windows { AreSmall (limits_of windows.now) }
    ensures { IfOk result (λ v. v.items ≡ network_wires machine.now (limits_of windows.now)) }
{
    let mut wires = Vec::new(alloc);
    let (one, two, three) = (machine.symbols(1), machine.symbols(2), machine.symbols(3));
    push_tape(&mut wires, 1, windows.first_cell(1), windows.cells(1), one)?;
    push_tape(
        &mut wires,
        one + 4,
        windows.first_cell(2),
        windows.cells(2),
        two,
    )?;
    push_tape(
        &mut wires,
        one + two + 7,
        windows.first_cell(3),
        windows.cells(3),
        three,
    )?;
    Ok(wires)
}

// Adds the wires of a tape: its ports at the control begin with `line`, and its first cell is module `first`.
fn push_tape(
    wires: &mut Vec<Wire>,
    line: u32,
    first: u32,
    cells: u32,
    symbols: u32,
) -> Result<(), NoMemory>
    requires line { line + MOST_SYMBOLS + 3 < 2 ^ 32 }
    requires cells { first + cells < 2 ^ 32 }
    requires some_cells { 1 ≤ cells }
    requires symbols { symbols ≤ MOST_SYMBOLS }
    ensures { OnOk result (wires.new.items ≡ wires.old.items ++ tape_wires line first cells symbols) }
{
    push_bundle(wires, at(0, line), at(first, 0), symbols + 3)?;
    push_bundle(wires, at(first, symbols + 4), at(0, line), symbols + 3)?;
    for cell in 0..cells - 1 {
        push_joint(wires, first + cell, symbols)?;
    }
    Ok(())
}

// Adds the wires between a cell and its right neighbour, in both directions.
fn push_joint(wires: &mut Vec<Wire>, cell: u32, symbols: u32) -> Result<(), NoMemory>
    requires cell { cell + 1 < 2 ^ 32 }
    requires symbols { symbols ≤ MOST_SYMBOLS }
    ensures { OnOk result (wires.new.items ≡ wires.old.items ++ joint cell symbols) }
{
    push_bundle(wires, at(cell, 0), at(cell + 1, 0), symbols + 4)?;
    push_bundle(
        wires,
        at(cell + 1, symbols + 4),
        at(cell, symbols + 4),
        symbols + 4,
    )?;
    Ok(())
}

// Adds the wires from `count` consecutive ports of a module, the first of which is `from`, to as many of another
// module.
fn push_bundle(wires: &mut Vec<Wire>, from: Line, to: Line, count: u32) -> Result<(), NoMemory>
    requires from { from.line + count < 2 ^ 32 }
    requires to { to.line + count < 2 ^ 32 }
    ensures { OnOk result (wires.new.items
        ≡ wires.old.items ++ bundle from.element from.line to.element to.line count) }
{
    for number in 0..count {
        let wire = Wire {
            from: at(from.element, from.line + number),
            to: at(to.element, to.line + number),
        };
        wires.push(wire)?;
    }
    Ok(())
}

fn at(element: u32, line: u32) -> Line
    ensures { result ≡ line_at element line }
{
    Line { element, line }
}
