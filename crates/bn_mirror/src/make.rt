//! The inverse circuit of a circuit in a configuration.

ghost use Rattle.std.specs.Prelude.{◌≡◌, ◌+◌, ◌*◌, ◌<◌, ◌≤◌, length, IfOk, OnOk};
ghost use Rattle.bn_element.specs.Inverse.{exchanged};
ghost use Rattle.bn_circuits.specs.Circuits.{IsPlace};
ghost use Rattle.bn_circuits.specs.RotaryNets.{rotary_circuit};
ghost use Rattle.bn_circuits.specs.Wirings.{AreWiresOf};
ghost use Rattle.bn_circuits.specs.declared.net.TheConstants.{MOST_ELEMENTS};
ghost use Rattle.bn_netlist_laws.specs.Spelling.{Admits};
ghost use Rattle.bn_netlist.specs.NetText.{spelling_of};
ghost use Rattle.bn_mirror.specs.Listing.{IsListing, IsMirroredWire};
ghost use Rattle.bn_mirror.specs.Mirror.{IsMirror, mirrored_line, mirrored_place};

use bn_circuits::{Config, Line, Net, Place, States, Wire, rotary_net};
use bn_element::{EAST, NORTH, Rotary, SOUTH, WEST};
use bn_lists::NoMemory;
use bn_netlist::NetConfig;
use std::alloc::Global;

/// The inverse circuit of a circuit in a configuration that can be written in its version: a circuit of the same
/// elements whose steps undo the steps of the first, with the signal at the corresponding place and no steps counted.
/// The inverse circuit has the same version, and can be written in it. (This project's own definition.)
pub fn mirror(alloc: Global, config: &NetConfig) -> Result<NetConfig, NoMemory>
    requires { Admits config.now.version (spelling_of config.now) }
    ensures mirrored { IfOk result (λ m. IsMirror (spelling_of config.now) (spelling_of m)) }
    ensures version { IfOk result (λ m. m.version ≡ config.now.version) }
    ensures admitted { IfOk result (λ m. Admits m.version (spelling_of m)) }
{
    let wires = mirrored_wires(alloc, &config.net)?;
    let net = rotary_net(alloc, config.net.len(), wires.as_slice())?;
    let states = Vec::from_slice(alloc, config.config.states.as_slice())?;
    Ok(NetConfig {
        version: config.version,
        net,
        config: Config {
            states: States::new(states),
            place: mirrored_place(&config.net, config.config.place),
            steps: 0,
        },
        start: mirrored_line(config.end),
        end: mirrored_line(config.start),
    })
}

// The wires of the inverse circuit.
fn mirrored_wires(alloc: Global, net: &Net<Rotary>) -> Result<Vec<Wire>, NoMemory>
    requires { length net.now.elements ≤ MOST_ELEMENTS }
    ensures wires { IfOk result (λ listed. AreWiresOf (IsMirroredWire net.now.wires) listed.items) }
    ensures count { IfOk result (λ listed. length listed.items ≤ 4 * length net.now.elements) }
{
    let mut wires = Vec::new(alloc);
    for element in 0..net.len() {
        push_wires(&mut wires, net, element)?;
    }
    Ok(wires)
}

// The wires of the four outputs of an element, inverted.
fn push_wires(wires: &mut Vec<Wire>, net: &Net<Rotary>, element: u32) -> Result<(), NoMemory>
    requires there { element < length net.now.elements }
    requires listed { IsListing net.now.wires (4 * element) wires.old.items }
    ensures { OnOk result (IsListing net.now.wires (4 * element + 4) wires.new.items) }
{
    push_wire(wires, net, element, NORTH)?;
    push_wire(wires, net, element, EAST)?;
    push_wire(wires, net, element, SOUTH)?;
    push_wire(wires, net, element, WEST)
}

// The wire of one output, inverted, if it has one.
fn push_wire(
    wires: &mut Vec<Wire>,
    net: &Net<Rotary>,
    element: u32,
    line: u32,
) -> Result<(), NoMemory>
    requires there { element < length net.now.elements }
    requires line { line < 4 }
    requires listed { IsListing net.now.wires (4 * element + line) wires.old.items }
    ensures { OnOk result (IsListing net.now.wires (4 * element + line + 1) wires.new.items) }
{
    let from = Line { element, line };
    match net.target(from) {
        None => Ok(()),
        Some(to) => {
            wires.push(Wire {
                from: mirrored_line(to),
                to: mirrored_line(from),
            })?;
            Ok(())
        }
    }
}

// The place of the signal in the inverse circuit.
fn mirrored_place(net: &Net<Rotary>, place: Place) -> Place
    requires { IsPlace (rotary_circuit net.now) place }
    ensures { result ≡ mirrored_place net.now.wires place }
{
    match place {
        Place::Left { element, line } => Place::Enter {
            element,
            line: exchanged(line),
        },
        Place::Enter { element, line } => match net.source(Line { element, line }) {
            Some(from) => Place::Enter {
                element: from.element,
                line: exchanged(from.line),
            },
            None => Place::Left {
                element,
                line: exchanged(line),
            },
        },
    }
}

// The port of the same element with east and west exchanged.
fn mirrored_line(line: Line) -> Line
    ensures { result ≡ mirrored_line line }
{
    Line {
        element: line.element,
        line: exchanged(line.line),
    }
}

// The port with east and west exchanged.
fn exchanged(line: u32) -> u32
    ensures { result ≡ exchanged line }
{
    match line {
        EAST => WEST,
        WEST => EAST,
        _ => line,
    }
}
