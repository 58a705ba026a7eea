//! The wires of a column.
ghost use Rattle.std.specs.Prelude.{◌≡◌, ◌+◌, ◌*◌, ◌^◌, ◌<◌, ◌≤◌, ◌++◌, ◌∷◌, [], length, IfOk, OnOk, OnErr, ◌⊎◌};
ghost use Rattle.bn_circuits.specs.Wirings.{AreWiresOf};
ghost use Rattle.bn_column.specs.Columns.{IsInner};
ghost use Rattle.bn_column.specs.Nets.{wire_of};

use bn_circuits::{Line, Wire};
use bn_element::{EAST, NORTH, SOUTH, WEST};
use bn_lists::NoMemory;
use std::alloc::Global;

/// The inner wires of a column of `rows` rows whose top row is element `first`.
pub fn column_wires(alloc: Global, first: u32, rows: u32) -> Result<Vec<Wire>, NoMemory>
    requires some { 1 ≤ rows }
    requires within { first + rows < 2 ^ 32 }
    ensures wires { IfOk result (λ v. AreWiresOf (IsInner first rows) v.items) }
    ensures count { IfOk result (λ v. length v.items ≡ 2 * rows + 3) }
{
    let mut wires = Vec::with_capacity(alloc, 2 * rows as usize + 3)?;
    for row in 0..rows {
        push_rung(&mut wires, first + row)?;
    }
    let bottom = first + rows;
    push_wire(&mut wires, wire(bottom, SOUTH, bottom, SOUTH))?;
    push_wire(&mut wires, wire(bottom, WEST, first, NORTH))?;
    push_wire(&mut wires, wire(first, NORTH, bottom, EAST))?;
    Ok(wires)
}

/// Adds the wires between this row and the next element, down and up. After `NoMemory` the list is unchanged, or the
/// wire down is appended to it.
pub fn push_rung(wires: &mut Vec<Wire>, row: u32) -> Result<(), NoMemory>
    requires { row + 1 < 2 ^ 32 }
    ensures added { OnOk result (wires.new.items ≡ (wires.old.items ++ wire_of row 2 (row + 1) 0 ∷ [])
        ++ wire_of (row + 1) 0 row 2 ∷ []) }
    ensures refused { OnErr result ((wires.new.items ≡ wires.old.items)
        ⊎ (wires.new.items ≡ wires.old.items ++ wire_of row 2 (row + 1) 0 ∷ [])) }
{
    push_wire(wires, wire(row, SOUTH, row + 1, NORTH))?;
    push_wire(wires, wire(row + 1, NORTH, row, SOUTH))?;
    Ok(())
}

/// The wire from output port `from_line` of element `from` to input port `to_line` of element `to`.
pub fn wire(from: u32, from_line: u32, to: u32, to_line: u32) -> Wire
    ensures { result ≡ wire_of from from_line to to_line }
{
    Wire {
        from: Line {
            element: from,
            line: from_line,
        },
        to: Line {
            element: to,
            line: to_line,
        },
    }
}

/// Appends a wire to a list. After `NoMemory` the list is unchanged.
pub fn push_wire(wires: &mut Vec<Wire>, wire: Wire) -> Result<(), NoMemory>
    ensures added { OnOk result (wires.new.items ≡ wires.old.items ++ wire ∷ []) }
    ensures refused { OnErr result (wires.new.items ≡ wires.old.items) }
{
    wires.push(wire)?;
    Ok(())
}
