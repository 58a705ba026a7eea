//! The ports that are the lines of a behaviour, as the arguments name them.

ghost use Rattle.std.specs.Prelude.{◌≡◌, ◌≤◌, IfOk, Some, length, option_map};
ghost use Rattle.bn_circuits.specs.RotaryNets.{rotary_circuit};
ghost use Rattle.bn_behaviour.specs.PortNames.{port_names_of};
ghost use Rattle.bn_reply_behaviours.specs.NamedPorts.{input_line, output_line};
ghost use Rattle.bn_reply_behaviours.specs.Replying.{AreLines};

use crate::names::read_names;
use crate::naming::Naming;
use crate::side::Side;
use bn_behaviour::{PortNames, all_ports};
use bn_circuits::{MOST_ELEMENTS, Net};
use bn_element::Rotary;
use bn_lists::NoMemory;
use bn_reply::{Reply, Status};
use std::alloc::Global;

/// The ports that are lines, or the answer that a name is wrong.
#[derive(Drop)]
pub(crate) enum Lines {
    /// The ports.
    Ports(bn_behaviour::Ports),
    /// The answer.
    Refused(Reply),
}

/// The ports that are the lines of a net: all free ports, or those that are named.
pub(crate) fn lines_of_net(
    alloc: Global,
    net: &Net<Rotary>,
    names: Option<PortNames>,
) -> Result<Lines, NoMemory>
    requires { length net.now.elements ≤ MOST_ELEMENTS }
    ensures { IfOk result (AreLines (rotary_circuit net.now) (option_map port_names_of names.entry)) }
{
    match names {
        None => Ok(Lines::Ports(all_ports(alloc, net)?)),
        Some(names) => named_lines(alloc, net, names),
    }
}

// The ports that are named.
fn named_lines(alloc: Global, net: &Net<Rotary>, names: PortNames) -> Result<Lines, NoMemory>
    requires { length net.now.elements ≤ MOST_ELEMENTS }
    ensures { IfOk result (AreLines (rotary_circuit net.now) (Some (port_names_of names.entry))) }
{
    let inputs = match read_names(alloc, net, Side::Input, names.inputs)? {
        Naming::Named(ports) => ports,
        Naming::Misnamed { place } => return Ok(Lines::Refused(wrong_input(alloc, place)?)),
    };
    let outputs = match read_names(alloc, net, Side::Output, names.outputs)? {
        Naming::Named(ports) => ports,
        Naming::Misnamed { place } => return Ok(Lines::Refused(wrong_output(alloc, place)?)),
    };
    Ok(Lines::Ports(bn_behaviour::Ports { inputs, outputs }))
}

// The answer that the name at this place among those of the input ports is wrong.
fn wrong_input(alloc: Global, place: u32) -> Result<Reply, NoMemory>
    ensures status { IfOk result (λ r. r.status ≡ Status.Word) }
    ensures text { IfOk result (λ r. r.text.items ≡ input_line place) }
{
    Ok(Reply {
        text: format!(in alloc; "word: in {place}\n")?.into_bytes(),
        status: Status::Word,
    })
}

// The same for the output ports.
fn wrong_output(alloc: Global, place: u32) -> Result<Reply, NoMemory>
    ensures status { IfOk result (λ r. r.status ≡ Status.Word) }
    ensures text { IfOk result (λ r. r.text.items ≡ output_line place) }
{
    Ok(Reply {
        text: format!(in alloc; "word: out {place}\n")?.into_bytes(),
        status: Status::Word,
    })
}
