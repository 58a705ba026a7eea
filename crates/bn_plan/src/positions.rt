//! The positions of ports, and the wire that begins at a position.

ghost use Rattle.std.specs.Prelude.{◌≡◌, ◌↔◌, ◌*◌, ◌^◌, ◌<◌, ◌≤◌, length, map, IfSome, IfNone, IsTrue};
ghost use Rattle.bn_circuits.specs.Circuits.{IsCircuit, IsInputOf, IsOutputOf};
ghost use Rattle.bn_circuits.specs.declared.line.Wire.{Wire};
ghost use Rattle.bn_element.specs.Rotary.{rotary};
ghost use Rattle.bn_circuits.specs.Order.{AreInOrder};
ghost use Rattle.bn_circuits.specs.RotaryNets.{rotary_circuit};
ghost use Rattle.bn_plan.specs.Wires.{output_position, input_position, HasFourLines};
ghost use Rattle.bn_plan.specs.Sweeping.{BeginsAt};

use bn_circuits::{Line, Net, Wire};
use bn_element::Rotary;

/// The greatest number of elements of a circuit that has a floor plan.
pub const MOST_PLANNED: u32 = 4_194_304;

/// The number of positions that an element takes: for its outputs, and then for its inputs.
pub(crate) const POSITIONS: u32 = 8;

// The number of output ports of a rotary element.
const OUTPUTS: u32 = 4;

/// The position of an output port.
pub(crate) fn output_position(line: Line) -> u32
    requires element { line.element < MOST_PLANNED }
    requires line { line.line < 4 }
    ensures { result ≡ output_position line }
{
    POSITIONS * line.element + line.line
}

/// The position of an input port.
pub(crate) fn input_position(line: Line) -> u32
    requires element { line.element < MOST_PLANNED }
    requires line { line.line < 4 }
    ensures { result ≡ input_position line }
{
    POSITIONS * line.element + OUTPUTS + line.line
}

/// The wire that begins at this position, which is its lesser end; `None` if no wire does. Its contract also states
/// the invariant of every net.
pub(crate) fn wire_from(net: &Net<Rotary>, position: u32) -> Option<Wire>
    requires few { length net.now.elements ≤ MOST_PLANNED }
    requires position { position < 8 * length net.now.elements }
    ensures begins { IfSome result (BeginsAt net.now.wires position) }
    ensures none { IfNone result ((w : Wire) → BeginsAt net.now.wires position w → ⊥) }
    ensures circuit { IsCircuit (rotary_circuit net.now) }
    ensures order { AreInOrder net.now.wires }
{
    let element = position / POSITIONS;
    let line = position % POSITIONS;
    if line < OUTPUTS {
        wire_out_of(net, Line { element, line })
    } else {
        let line = line - OUTPUTS;
        wire_into(net, Line { element, line })
    }
}

// The wire that begins at this output port.
fn wire_out_of(net: &Net<Rotary>, from: Line) -> Option<Wire>
    requires few { length net.now.elements ≤ MOST_PLANNED }
    requires output { IsOutputOf (map (λ _. rotary) net.now.elements) from }
    ensures begins { IfSome result (BeginsAt net.now.wires (output_position from)) }
    ensures none { IfNone result ((w : Wire) → BeginsAt net.now.wires (output_position from) w → ⊥) }
    ensures circuit { IsCircuit (rotary_circuit net.now) }
    ensures order { AreInOrder net.now.wires }
{
    match net.target(from) {
        None => None,
        Some(to) => {
            let wire = Wire { from, to };
            begins_at_output(wire).then_some(wire)
        }
    }
}

// The wire that begins at this input port.
fn wire_into(net: &Net<Rotary>, to: Line) -> Option<Wire>
    requires few { length net.now.elements ≤ MOST_PLANNED }
    requires input { IsInputOf (map (λ _. rotary) net.now.elements) to }
    ensures begins { IfSome result (BeginsAt net.now.wires (input_position to)) }
    ensures none { IfNone result ((w : Wire) → BeginsAt net.now.wires (input_position to) w → ⊥) }
    ensures circuit { IsCircuit (rotary_circuit net.now) }
    ensures order { AreInOrder net.now.wires }
{
    match net.source(to) {
        None => None,
        Some(from) => {
            let wire = Wire { from, to };
            (!begins_at_output(wire)).then_some(wire)
        }
    }
}

// Whether the wire begins at its output port: that is, the output port has the lesser position.
fn begins_at_output(wire: Wire) -> bool
    requires from { wire.from.element < MOST_PLANNED }
    requires to { wire.to.element < MOST_PLANNED }
    requires lines { HasFourLines wire }
    ensures { IsTrue result ↔ (output_position wire.from < input_position wire.to) }
{
    output_position(wire.from) < input_position(wire.to)
}
