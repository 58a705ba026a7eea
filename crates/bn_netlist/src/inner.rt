//! The wires of a column, as a list.

ghost use Rattle.std.specs.Prelude.{◌≡◌, ◌+◌, ◌^◌, ◌<◌, IfOk};
ghost use Rattle.bn_circuits.specs.Circuits.{same_line};
ghost use Rattle.bn_netlist_laws.specs.Faults.{is_left_by};
ghost use Rattle.bn_netlist_laws.specs.Columns.{inner_wires};
ghost use Rattle.bn_netlist_laws.specs.Faults.{some_wire};

use bn_circuits::{Line, Place, Wire};
use bn_column::{push_rung, push_wire, wire};
use bn_element::{EAST, NORTH, SOUTH, WEST};
use bn_lists::NoMemory;
use std::alloc::Global;

/// The inner wires of a column of `rows` rows whose top row is element `first`, from the top.
pub(crate) fn inner_wires(alloc: Global, first: u32, rows: u32) -> Result<Vec<Wire>, NoMemory>
    requires within { first + rows < 2 ^ 32 }
    ensures { IfOk result (λ v. v.items ≡ inner_wires first rows) }
{
    let mut wires = Vec::new(alloc);
    for row in 0..rows {
        push_rung(&mut wires, first + row)?;
    }
    let bottom = first + rows;
    push_wire(&mut wires, wire(bottom, SOUTH, bottom, SOUTH))?;
    push_wire(&mut wires, wire(bottom, WEST, first, NORTH))?;
    push_wire(&mut wires, wire(first, NORTH, bottom, EAST))?;
    Ok(wires)
}

/// Whether one of the wires leaves this output port.
pub(crate) fn leave(wires: &[Wire], line: Line) -> bool
    ensures { result ≡ some_wire (λ w. same_line line w.from) wires.now }
{
    for index in 0..wires.len() {
        if line == wires[index].from {
            return true;
        }
    }
    false
}

/// Whether one of the wires ends at this input port.
pub(crate) fn end_at(wires: &[Wire], line: Line) -> bool
    ensures { result ≡ some_wire (λ w. same_line line w.to) wires.now }
{
    for index in 0..wires.len() {
        if line == wires[index].to {
            return true;
        }
    }
    false
}

/// Whether one of the wires leaves the output port by which the signal has left.
pub(crate) fn leave_behind(wires: &[Wire], place: Place) -> bool
    ensures { result ≡ some_wire (λ w. is_left_by place w.from) wires.now }
{
    match place {
        Place::Enter { .. } => false,
        Place::Left { element, line } => leave(wires, Line { element, line }),
    }
}
