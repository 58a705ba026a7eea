//! Wires of a net that are added some at a time, before the net is packed.

ghost use Rattle.std.specs.Prelude.{◌≡◌, ◌<◌, ◌^◌, [], ◌++◌, List, IfOk};
ghost use Rattle.bn_circuits.specs.declared.line.Wire.{Wire};
ghost use Rattle.bn_circuits.specs.Wirings.{AreApart, AreFitting};
ghost use Rattle.bn_packed.specs.Drafts.{AreDrawn};

use crate::ends::Ends;
use bn_circuits::Wire;
use bn_lists::NoMemory;
use std::alloc::Global;
use std::marker::Model;

/// Wires of a net of rotary elements, added some at a time and stored in packed form, so that no list of all of them
/// is needed in memory. Elements and ports are counted from 0. Contracts see the number of elements, and where ports
/// lead so far.
#[derive(Debug, Drop)]
pub struct Draft {
    ends: Ends<u32>,
}

impl Model for Draft {
    ghost use Rattle.bn_packed.specs.Ends.{EndList};

    ghost Value = { EndList };

    ghost view = { λ d. d.ends };
}

impl Draft {
    /// A draft of this many elements, fewer than 2 to the power 30, with no wire.
    pub fn new(alloc: Global, count: u32) -> Result<Draft, NoMemory>
        requires { count < 2 ^ 30 }
        ensures { IfOk result (AreDrawn count []) }
    {
        Ok(Draft {
            ends: Ends::loose(alloc, count)?,
        })
    }

    /// Adds these wires, each between ports of the draft's elements, after those added before. The draft then holds
    /// all of them, if no two leave the same port and no two lead to the same port. Takes no memory.
    pub fn add(&mut self, wires: &[Wire])
        requires fitting { AreFitting self.old.elements wires.now }
        ensures elements { self.new.elements ≡ self.old.elements }
        ensures drawn { (ws : List Wire) → AreDrawn self.old.elements ws self.old → AreApart (ws ++ wires.now)
            → AreDrawn self.old.elements (ws ++ wires.now) self.new }
    {
        self.ends.lead(wires);
    }

    /// The number of elements.
    pub fn len(&self) -> u32
        ensures { result ≡ self.now.elements }
    {
        self.ends.elements()
    }

    /// The ends of the draft, from which the net is packed.
    pub(crate) fn into_ends(self) -> Ends<u32>
        ensures same { result ≡ self }
        ensures few { self.elements < 2 ^ 32 }
    {
        self.ends
    }
}
