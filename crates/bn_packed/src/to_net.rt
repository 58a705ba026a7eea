//! Unpacking: a packed net as a net.

ghost use Rattle.std.specs.Prelude.{◌≡◌, ◌+◌, ◌*◌, ◌<◌, ◌≤◌, length, IfOk, OnOk};
ghost use Rattle.bn_circuits.specs.Circuits.{IsCircuit};
ghost use Rattle.bn_circuits.specs.Order.{AreInOrder};
ghost use Rattle.bn_circuits.specs.RotaryNets.{rotary_circuit};
ghost use Rattle.bn_circuits.specs.Wirings.{AreWiresOf};
ghost use Rattle.bn_circuits.specs.declared.net.TheConstants.{MOST_ELEMENTS};
ghost use Rattle.bn_packed.specs.CopiedWires.{IsTargetBefore};

use crate::packed::Packed;
use bn_circuits::{Line, Net, Wire, rotary_net};
use bn_element::Rotary;
use bn_lists::NoMemory;
use std::alloc::Global;

impl Packed {
    /// The net, unpacked. Its wires are in the order of the output ports that they leave (this project's own profile).
    /// Elements and ports are counted from 0.
    pub fn to_net(&self, alloc: Global) -> Result<Net<Rotary>, NoMemory>
        requires order { AreInOrder self.now.net.wires }
        requires few { length self.now.net.elements ≤ MOST_ELEMENTS }
        ensures { IfOk result (λ n. n ≡ self.now.net) }
    {
        let wires = wires_of(alloc, self)?;
        let net = rotary_net(alloc, self.len(), wires.as_slice())?;
        prove!(net.len() == self.len());
        Ok(net)
    }
}

// The wires of a packed net, one for each output port that has a wire, in the order of these ports.
fn wires_of(alloc: Global, packed: &Packed) -> Result<Vec<Wire>, NoMemory>
    ensures wires { IfOk result (λ v. AreWiresOf (IsTargetBefore packed.now.net.wires
        (length packed.now.net.elements) 0) v.items) }
    ensures few { IfOk result (λ v. length v.items ≤ 4 * length packed.now.net.elements) }
{
    let mut wires = Vec::new(alloc);
    for element in 0..packed.len() {
        push_element(&mut wires, packed, element)?;
    }
    Ok(wires)
}

// Adds the wires that leave an element, after those that leave earlier ones.
fn push_element(wires: &mut Vec<Wire>, packed: &Packed, element: u32) -> Result<(), NoMemory>
    requires circuit { IsCircuit (rotary_circuit packed.now.net) }
    requires element { element < length packed.now.net.elements }
    requires earlier { AreWiresOf (IsTargetBefore packed.now.net.wires element 0) wires.old.items }
    ensures wires { OnOk result (AreWiresOf (IsTargetBefore packed.now.net.wires (element + 1) 0) wires.new.items) }
    ensures few { OnOk result (length wires.new.items ≤ length wires.old.items + 4) }
{
    for line in 0..4 {
        push_line(wires, packed, Line { element, line })?;
    }
    Ok(())
}

// Adds the wire that leaves an output port, if one does.
fn push_line(wires: &mut Vec<Wire>, packed: &Packed, from: Line) -> Result<(), NoMemory>
    requires circuit { IsCircuit (rotary_circuit packed.now.net) }
    requires element { from.element < length packed.now.net.elements }
    requires line { from.line < 4 }
    requires earlier { AreWiresOf (IsTargetBefore packed.now.net.wires from.element from.line) wires.old.items }
    ensures wires { OnOk result (AreWiresOf (IsTargetBefore packed.now.net.wires from.element (from.line + 1))
        wires.new.items) }
    ensures few { OnOk result (length wires.new.items ≤ length wires.old.items + 1) }
{
    match packed.target(from) {
        None => Ok(()),
        Some(to) => {
            wires.push(Wire { from, to })?;
            Ok(())
        }
    }
}
