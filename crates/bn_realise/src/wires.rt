//! The wires of a bank.
ghost use Rattle.std.specs.Prelude.{◌≡◌, ◌+◌, ◌*◌, ◌^◌, ◌<◌, ◌≤◌, ◌++◌, ◌∷◌, [], length, IfOk, OnOk};
ghost use Rattle.bn_circuits.specs.Wirings.{AreWiresOf};
ghost use Rattle.bn_realise.specs.Banks.{IsBankWire, column_at};
ghost use Rattle.bn_realise.specs.BankWires.{IsEarlier, IsStage, IsHalf};
ghost use Rattle.bn_realise.specs.BankNets.{HasRoom};

use bn_circuits::Wire;
use bn_column::{column_wires, wire};
use bn_element::{EAST, Element, WEST};
use bn_lists::NoMemory;
use std::alloc::Global;

/// The wires inside the bank of `machine` whose first element is `first`.
pub fn bank_wires<E: Element>(alloc: Global, machine: &E, first: u32) -> Result<Vec<Wire>, NoMemory>
    requires { HasRoom first (E.table machine.now) }
    ensures wires { IfOk result (λ v. AreWiresOf (IsBankWire first (E.table machine.now)) v.items) }
    ensures few { IfOk result (λ v.
        length v.items ≤ (E.table machine.now).states * (4 * (E.table machine.now).inputs + 3)) }
{
    let (states, lines) = (machine.states() as usize, machine.lines_in() as usize);
    let mut wires = Vec::with_capacity(alloc, states * (4 * lines + 3))?;
    for column in 0..machine.states() {
        push_column(alloc, &mut wires, machine, first, column)?;
    }
    Ok(wires)
}

// The wires that leave a column.
fn push_column<E: Element>(
    alloc: Global,
    wires: &mut Vec<Wire>,
    machine: &E,
    first: u32,
    column: u32,
) -> Result<(), NoMemory>
    requires room { HasRoom first (E.table machine.now) }
    requires column { column < (E.table machine.now).states }
    requires earlier { AreWiresOf (IsEarlier first (E.table machine.now) column) wires.old.items }
    ensures earlier { OnOk result (AreWiresOf (IsEarlier first (E.table machine.now) (column + 1)) wires.new.items) }
    ensures few { OnOk result (
        length wires.new.items ≤ length wires.old.items + (4 * (E.table machine.now).inputs + 3)) }
{
    let rows = machine.lines_in();
    let inner = column_wires(alloc, element_at(first, rows, column, 0), rows)?;
    wires.extend_from_slice(inner.as_slice())?;
    for row in 0..rows {
        push_onward(wires, machine, first, column, row)?;
        push_turned(wires, machine, first, column, row)?;
    }
    Ok(())
}

// The wire from a row to the next column, if there is one.
fn push_onward<E: Element>(
    wires: &mut Vec<Wire>,
    machine: &E,
    first: u32,
    column: u32,
    row: u32,
) -> Result<(), NoMemory>
    requires room { HasRoom first (E.table machine.now) }
    requires column { column < (E.table machine.now).states }
    requires row { row < (E.table machine.now).inputs }
    requires stage { AreWiresOf (IsStage first (E.table machine.now) column row) wires.old.items }
    ensures half { OnOk result (AreWiresOf (IsHalf first (E.table machine.now) column row) wires.new.items) }
    ensures few { OnOk result (length wires.new.items ≤ length wires.old.items + 1) }
{
    if column + 1 >= machine.states() {
        return Ok(());
    }
    let rows = machine.lines_in();
    let from = element_at(first, rows, column, row);
    let to = element_at(first, rows, column + 1, row);
    wires.push(wire(from, EAST, to, WEST))?;
    Ok(())
}

// The wire from where the signal of a row is turned back to where it leaves, if the pair of the column and the row has
// a move.
fn push_turned<E: Element>(
    wires: &mut Vec<Wire>,
    machine: &E,
    first: u32,
    column: u32,
    row: u32,
) -> Result<(), NoMemory>
    requires room { HasRoom first (E.table machine.now) }
    requires column { column < (E.table machine.now).states }
    requires row { row < (E.table machine.now).inputs }
    requires half { AreWiresOf (IsHalf first (E.table machine.now) column row) wires.old.items }
    ensures stage { OnOk result (AreWiresOf (IsStage first (E.table machine.now) column (row + 1)) wires.new.items) }
    ensures few { OnOk result (length wires.new.items ≤ length wires.old.items + 1) }
{
    let Some((next, out)) = machine.go(column, row) else {
        return Ok(());
    };
    let rows = machine.lines_in();
    let from = element_at(first, rows, column, row);
    let to = element_at(first, rows, next, out);
    wires.push(wire(from, WEST, to, EAST))?;
    Ok(())
}

// The element of a row of a column, both counted from 0.
fn element_at(first: u32, rows: u32, column: u32, row: u32) -> u32
    requires { column_at first rows column + row < 2 ^ 32 }
    ensures { result ≡ column_at first rows column + row }
{
    let before = u64::from(column) * (u64::from(rows) + 1);
    (u64::from(first) + before + u64::from(row)) as u32
}
