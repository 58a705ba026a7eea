//! Nets of rotary elements with given wires.
ghost use Rattle.std.specs.Prelude.{◌<◌, ◌^◌, length, IfOk};
ghost use Rattle.bn_circuits.specs.Wirings.{AreApart, AreFitting};
ghost use Rattle.bn_circuits.specs.Circuits.{IsCircuit};
ghost use Rattle.bn_circuits.specs.RotaryNets.{IsNetOf, rotary_circuit};

use crate::Wire;
use crate::net::Net;
use bn_element::Rotary;
use bn_lists::NoMemory;
use std::alloc::Global;

/// The net of `count` rotary elements with these wires.
pub fn rotary_net(alloc: Global, count: u32, wires: &[Wire]) -> Result<Net<Rotary>, NoMemory>
    requires few { length wires.now < 2 ^ 32 }
    requires apart { AreApart wires.now }
    requires fitting { AreFitting count wires.now }
    ensures net { IfOk result (λ net. IsNetOf net count wires.now) }
    ensures circuit { IfOk result (λ net. IsCircuit (rotary_circuit net)) }
{
    let elements = vec![in alloc; Rotary; count as usize]?;
    Net::new(alloc, elements, wires)
}
