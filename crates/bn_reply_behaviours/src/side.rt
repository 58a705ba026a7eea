//! The two sides of a circuit, and the ports on each that have no wire.

ghost use Rattle.std.specs.Prelude.{◌≡◌, ◌<◌, ◌≤◌, MatchOption, length};
ghost use Rattle.bn_circuits.specs.RotaryNets.{rotary_circuit};
ghost use Rattle.bn_circuits.specs.declared.line.Line.{Line};
ghost use Rattle.bn_netlist_laws.specs.Sentences.{line_text};
ghost use Rattle.bn_reply_behaviours.specs.Replying.{IsFree, end_of};

use bn_circuits::{MOST_ELEMENTS, Net};
use bn_element::Rotary;
use bn_netlist::named_after;

/// Whether a port is an input port or an output port.
#[derive(Clone, Copy, PartialEq, Eq, Debug)]
pub(crate) enum Side {
    /// An input port.
    Input,
    /// An output port.
    Output,
}

// The other end of the wire of a port of this side, if it has a wire.
fn end_at(net: &Net<Rotary>, side: Side, port: bn_circuits::Line) -> Option<bn_circuits::Line>
    requires element { port.element < length net.now.elements }
    requires line { port.line < 4 }
    ensures { result ≡ end_of (rotary_circuit net.now) side port }
{
    match side {
        Side::Input => net.source(port),
        Side::Output => net.target(port),
    }
}

/// The free port of this side with a name; `None` exactly if there is none.
pub(crate) fn port_named(net: &Net<Rotary>, side: Side, name: &[u8]) -> Option<bn_circuits::Line>
    requires { length net.now.elements ≤ MOST_ELEMENTS }
    ensures { MatchOption result
        ((l : Line) → IsFree (rotary_circuit net.now) side l → name.now ≡ line_text l → ⊥)
        (λ l. IsFree (rotary_circuit net.now) side l × (name.now ≡ line_text l)) }
{
    let Some((element, line)) = named_after(name, b"") else {
        return None;
    };
    if element >= u64::from(net.len()) {
        return None;
    }
    let port = bn_circuits::Line {
        element: element as u32,
        line,
    };
    match end_at(net, side, port) {
        None => Some(port),
        Some(_) => None,
    }
}
