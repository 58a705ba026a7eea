//! Values built from a configuration text.

ghost use Rattle.std.specs.Prelude.{◌≡◌, ◌≤◌, List, IfOk};
ghost use Rattle.bn_circuits.specs.Circuits.{IsConfig};
ghost use Rattle.bn_circuits.specs.declared.line.Wire.{Wire};
ghost use Rattle.bn_circuits.specs.declared.net.TheConstants.{MOST_ELEMENTS};
ghost use Rattle.bn_packed.specs.Drafts.{AreDrawn};
ghost use Rattle.bn_netlist_laws.specs.Spelling.{AreSame, circuit_of};
ghost use Rattle.bn_netlist.specs.WireSpelling.{spelling_by};

use crate::spellable::Spellable;
use bn_lists::NoMemory;
use bn_netlist_laws::Header;
use bn_packed::Draft;
use std::alloc::Global;

/// A value built from the wires and the bars of a configuration text. (This project's own profile.)
pub trait FromWires: Spellable + Drop {
    /// The value with the header's number of elements, the wires of this draft, bars in these states, and the version,
    /// start, end, place and steps of the header.
    fn from_draft(
        alloc: Global,
        header: &Header,
        drawn: Draft,
        states: Vec<u32>,
    ) -> Result<Self, NoMemory>
        requires drawn { (ws : List Wire) × AreDrawn header.now.count ws drawn }
        requires good { (ws : List Wire) → AreDrawn header.now.count ws drawn
            → IsConfig (circuit_of (spelling_by header.now ws states.items))
            (spelling_by header.now ws states.items).config }
        requires few { header.now.count ≤ MOST_ELEMENTS }
        ensures version { IfOk result (λ c. Self.version c ≡ header.now.version) }
        ensures spelling { IfOk result (λ c. (ws : List Wire) → AreDrawn header.now.count ws drawn
            → AreSame (spelling_by header.now ws states.items) (Self.spelling c)) };
}
