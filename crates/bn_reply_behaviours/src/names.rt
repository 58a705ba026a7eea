//! Reading the names of ports.

ghost use Rattle.std.specs.Prelude.{◌≡◌, ◌==◌, ◌<◌, ◌≤◌, ◌-◌, ◌^◌, ◌∷◌, [], ℕ, List, IfNone, IfOk, IfSome, Contains};
ghost use Rattle.std.specs.Prelude.{length, position};
ghost use Rattle.bn_circuits.specs.RotaryNets.{rotary_circuit};
ghost use Rattle.bn_qtable.specs.TapeWords.{comma};
ghost use Rattle.bn_reply_behaviours.specs.NamedPorts.{names_in};
ghost use Rattle.bn_reply_behaviours.specs.Replying.{AreNamedSoFar, IsAddedIf, IsFree, IsNaming};

use crate::naming::Naming;
use crate::side::{Side, port_named};
use bn_behaviour::PortList;
use bn_circuits::{MOST_ELEMENTS, Net};
use bn_element::Rotary;
use bn_lists::NoMemory;
use std::alloc::Global;

/// The separator between names.
const COMMA: u8 = b',';

/// Reads the names of free ports of one side, with a comma between two: the ports, or the place of the first name that
/// is not that of a free port or names a port again.
pub(crate) fn read_names(
    alloc: Global,
    net: &Net<Rotary>,
    side: Side,
    bytes: &[u8],
) -> Result<Naming, NoMemory>
    requires { length net.now.elements ≤ MOST_ELEMENTS }
    ensures { IfOk result (IsNaming (rotary_circuit net.now) side (names_in bytes.now)) }
{
    let mut ports = PortList::new(alloc);
    if bytes.is_empty() {
        return Ok(Naming::Named(ports));
    }
    let mut left = bytes;
    while let Some(comma) = first_comma(left) {
        if !add_named(net, side, &left[..comma], &mut ports)? {
            return Ok(Naming::Misnamed {
                place: ports.len() + 1,
            });
        }
        left = &left[comma + 1..];
    }
    read_last(net, side, ports, left)
}

// The same for names of which this is the last, after those of some ports.
fn read_last(
    net: &Net<Rotary>,
    side: Side,
    before: PortList,
    name: &[u8],
) -> Result<Naming, NoMemory>
    requires few { length net.now.elements ≤ MOST_ELEMENTS }
    requires room { length before < 2 ^ 32 - 1 }
    ensures { (names : List (List ℕ))
        → AreNamedSoFar (IsFree (rotary_circuit net.now) side) names before (name.now ∷ [])
        → IfOk result (IsNaming (rotary_circuit net.now) side names) }
{
    let mut ports = before;
    if !add_named(net, side, name, &mut ports)? {
        return Ok(Naming::Misnamed {
            place: ports.len() + 1,
        });
    }
    Ok(Naming::Named(ports))
}

// Adds the free port with a name. `false` exactly if no free port has the name, or the port is in the list already;
// then nothing has changed.
fn add_named(
    net: &Net<Rotary>,
    side: Side,
    name: &[u8],
    ports: &mut PortList,
) -> Result<bool, NoMemory>
    requires few { length net.now.elements ≤ MOST_ELEMENTS }
    requires room { length ports.old < 2 ^ 32 - 1 }
    ensures { IfOk result (IsAddedIf (IsFree (rotary_circuit net.now) side) name.now ports.old ports.new) }
{
    let Some(port) = port_named(net, side, name) else {
        return Ok(false);
    };
    match ports.find(port) {
        Some(_) => Ok(false),
        None => {
            ports.push(port)?;
            Ok(true)
        }
    }
}

// The place of the first comma, counted from 0.
fn first_comma(bytes: &[u8]) -> Option<usize>
    ensures place { result ≡ position (λ byte. byte == comma) bytes.now }
    ensures within { IfSome result (λ place. place < length bytes.now) }
    ensures none { IfNone result (Contains bytes.now comma → ⊥) }
{
    bytes.iter().position(|byte| *byte == COMMA)
}
