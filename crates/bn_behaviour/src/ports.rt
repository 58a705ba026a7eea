//! The ports of a circuit that are the ports of its behaviour.

ghost use Rattle.std.specs.Prelude.{◌≤◌, length, IfOk};
ghost use Rattle.bn_circuits.specs.Circuits.{IsCircuit};
ghost use Rattle.bn_circuits.specs.RotaryNets.{rotary_circuit};
ghost use Rattle.bn_behaviour.specs.Ports.{AreAllPorts, ArePorts};

use crate::free::{free_inputs, free_outputs};
use crate::port_list::PortList;
use bn_circuits::{MOST_ELEMENTS, Net};
use bn_element::Rotary;
use bn_lists::NoMemory;
use std::alloc::Global;

/// The ports of a circuit that are its ports as a sequential machine: entry i of `inputs`, counted from 0, is input
/// port i, and entry i of `outputs` is output port i.
#[derive(Drop)]
pub struct Ports {
    /// The input ports, to none of which a wire leads.
    pub inputs: PortList,
    /// The output ports, from none of which a wire leads.
    pub outputs: PortList,
}

/// All free ports of a net, in rising order of element and port.
pub fn all_ports(alloc: Global, net: &Net<Rotary>) -> Result<Ports, NoMemory>
    requires { length net.now.elements ≤ MOST_ELEMENTS }
    ensures all { IfOk result (AreAllPorts (rotary_circuit net.now)) }
    ensures ports { IfOk result (ArePorts (rotary_circuit net.now)) }
    ensures circuit { IsCircuit (rotary_circuit net.now) }
{
    let inputs = free_inputs(alloc, net)?;
    let outputs = free_outputs(alloc, net)?;
    Ok(Ports {
        inputs: PortList::of(alloc, inputs.as_slice())?,
        outputs: PortList::of(alloc, outputs.as_slice())?,
    })
}
