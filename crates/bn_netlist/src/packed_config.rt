//! A packed net in a configuration, with the version and the ports that its text names.

use crate::from_wires::FromWires;
use crate::spellable::Spellable;
use bn_circuits::{Config, Line, Place, States};
use bn_lists::NoMemory;
use bn_netlist_laws::{Header, Version};
use bn_packed::{Draft, Packed};
use std::alloc::Global;

/// A packed net of rotary elements in a configuration, with the two ports that its text names, and the version of that
/// text. Elements and ports are counted from 0. (This project's own profile.)
#[derive(Debug, Drop)]
pub struct PackedConfig {
    /// The version of its text.
    pub version: Version,
    /// The net, in its configuration.
    pub packed: Packed,
    /// The start, an input port to which no wire leads.
    pub start: Line,
    /// The end, an output port from which no wire leads.
    pub end: Line,
}

impl Spellable for PackedConfig {
    ghost use Rattle.bn_netlist.specs.PackedText.{spelling_of_packed};

    ghost version = { λ c. c.version };

    ghost spelling = { spelling_of_packed };

    fn version(&self) -> Version {
        self.version
    }

    fn len(&self) -> u32 {
        self.packed.len()
    }

    fn start(&self) -> Line {
        self.start
    }

    fn end(&self) -> Line {
        self.end
    }

    fn steps(&self) -> u64 {
        self.packed.steps()
    }

    fn place(&self) -> Place {
        self.packed.place()
    }

    fn bar(&self, element: u32) -> u32 {
        self.packed.bar(element)
    }

    fn target(&self, from: Line) -> Option<Line> {
        self.packed.target(from)
    }
}

impl FromWires for PackedConfig {
    fn from_draft(
        alloc: Global,
        header: &Header,
        drawn: Draft,
        states: Vec<u32>,
    ) -> Result<PackedConfig, NoMemory> {
        let config = Config {
            states: States::new(states),
            place: header.place,
            steps: header.steps,
        };
        let packed = Packed::from_draft(alloc, drawn, config)?;
        Ok(PackedConfig {
            version: header.version,
            packed,
            start: header.start,
            end: header.end,
        })
    }
}
