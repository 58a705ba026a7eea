//! Columns of a net, by the states of its elements.

ghost use Rattle.std.specs.Prelude.{◌≡◌, ℕ, length, MatchOption};
ghost use Rattle.bn_circuits.specs.RotaryNets.{rotary_circuit};
ghost use Rattle.bn_netlist_laws.specs.Columns.{IsColumnAt};

use crate::column_lines::column_rows;
use crate::spellable::Spellable;
use bn_circuits::{Line, Net, Place, States};
use bn_element::Rotary;
use bn_netlist_laws::Version;

/// A net with these states of its elements. The rest of a configuration does not matter for columns: the signal is
/// about to enter the first port, no step is counted, and that port is both the start and the end.
#[derive(Drop)]
struct NetInStates<'a> {
    net: &'a Net<Rotary>,
    states: &'a States,
}

impl Spellable for NetInStates<'_> {
    ghost use Rattle.std.specs.Prelude.{length};
    ghost use Rattle.bn_circuits.specs.declared.place.Place.TheVariants.{Enter};
    ghost use Rattle.bn_netlist_laws.specs.declared.version.Version.TheVariants.{Two};

    ghost version = { λ _. Two };

    ghost spelling = { λ s. record {
      elements = length s.net.now.elements;
      wires = s.net.now.wires;
      config = record { states = s.states.now; place = Enter 0 0; steps = 0 };
      start = record { element = 0; line = 0 };
      end = record { element = 0; line = 0 };
    } };

    fn version(&self) -> Version {
        Version::Two
    }

    fn len(&self) -> u32 {
        self.net.len()
    }

    fn start(&self) -> Line {
        Line {
            element: 0,
            line: 0,
        }
    }

    fn end(&self) -> Line {
        Line {
            element: 0,
            line: 0,
        }
    }

    fn steps(&self) -> u64 {
        0
    }

    fn place(&self) -> Place {
        Place::Enter {
            element: 0,
            line: 0,
        }
    }

    fn bar(&self, element: u32) -> u32 {
        self.states.get(element as usize)
    }

    fn target(&self, from: Line) -> Option<Line> {
        self.net.target(from)
    }
}

/// The number of rows of the column that begins at this element of a net in these states, one for each element; `None`
/// exactly if no column begins there. The call takes no memory. (This project's own profile.)
pub fn column_at(net: &Net<Rotary>, states: &States, element: u32) -> Option<u32>
    requires states { length states.now ≡ length net.now.elements }
    ensures { MatchOption result
        ((k : ℕ) → IsColumnAt (rotary_circuit net.now) states.now element k → ⊥)
        (IsColumnAt (rotary_circuit net.now) states.now element) }
{
    column_rows(&NetInStates { net, states }, element)
}
