//! The meaning of a configuration text: a net in a configuration.

use crate::from_wires::FromWires;
use crate::spellable::Spellable;
use bn_circuits::{Config, Line, Net, Place, States};
use bn_element::Rotary;
use bn_lists::NoMemory;
use bn_netlist_laws::{Header, Version};
use bn_packed::{Draft, Packed};
use std::alloc::Global;

/// A net of rotary elements in a configuration, with the two ports that its text names, and the version of that text.
/// Elements and ports are counted from 0. (This project's own profile.)
#[derive(Debug, Drop)]
pub struct NetConfig {
    /// The version of its text.
    pub version: Version,
    /// The net.
    pub net: Net<Rotary>,
    /// Its configuration.
    pub config: Config,
    /// The start, an input port to which no wire leads.
    pub start: Line,
    /// The end, an output port from which no wire leads.
    pub end: Line,
}

impl Spellable for NetConfig {
    ghost use Rattle.bn_netlist.specs.NetText.{spelling_of};

    ghost version = { λ c. c.version };

    ghost spelling = { spelling_of };

    fn version(&self) -> Version {
        self.version
    }

    fn len(&self) -> u32 {
        self.net.len()
    }

    fn start(&self) -> Line {
        self.start
    }

    fn end(&self) -> Line {
        self.end
    }

    fn steps(&self) -> u64 {
        self.config.steps
    }

    fn place(&self) -> Place {
        self.config.place
    }

    fn bar(&self, element: u32) -> u32 {
        self.config.states.get(element as usize)
    }

    fn target(&self, from: Line) -> Option<Line> {
        self.net.target(from)
    }
}

impl FromWires for NetConfig {
    fn from_draft(
        alloc: Global,
        header: &Header,
        drawn: Draft,
        states: Vec<u32>,
    ) -> Result<NetConfig, NoMemory> {
        let config = Config {
            states: States::new(states),
            place: header.place,
            steps: header.steps,
        };
        let packed = Packed::from_draft(alloc, drawn, config)?;
        let net = packed.to_net(alloc)?;
        let config = packed.to_config(alloc)?;
        Ok(NetConfig {
            version: header.version,
            net,
            config,
            start: header.start,
            end: header.end,
        })
    }
}
