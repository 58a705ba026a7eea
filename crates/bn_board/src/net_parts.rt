//! A circuit as a net with its configuration.

ghost use Rattle.std.specs.Prelude.{◌≡◌, IfOk};
ghost use Rattle.bn_board.specs.Flattened.{IsBoardKept};

use crate::board::Board;
use bn_circuits::{Config, Line, Net};
use bn_element::Rotary;
use bn_lists::NoMemory;
use std::alloc::Global;

/// An unpacked copy of a circuit (own to this project): its net with the circuit's wires and no others, its
/// configuration, the port by which the signal enters at the start, and the port by which it leaves at the end.
/// Elements and ports are counted from 0.
#[derive(Debug, Drop)]
pub struct NetParts {
    /// The net, with one element for each element of the circuit.
    pub net: Net<Rotary>,
    /// The configuration of the circuit: its bars, its place, and its element steps.
    pub config: Config,
    /// The port by which the signal enters at the start.
    pub start: Line,
    /// The port by which the signal leaves at the end.
    pub end: Line,
}

impl Board {
    /// The circuit as a net with its configuration, its start and its end (own to this project). The circuit is
    /// unchanged. Elements and ports are counted from 0. `Err`: out of memory. The contract also states what holds
    /// for every circuit afterwards.
    pub fn net_config(&self, alloc: Global) -> Result<NetParts, NoMemory>
        ensures net { IfOk result (λ p. p.net ≡ self.now.net) }
        ensures config { IfOk result (λ p. p.config ≡ self.now.config) }
        ensures start { IfOk result (λ p. p.start ≡ self.now.start) }
        ensures end { IfOk result (λ p. p.end ≡ self.now.end) }
        ensures kept { IsBoardKept self.now }
    {
        let packed = self.packed();
        let net = packed.to_net(alloc)?;
        let config = packed.to_config(alloc)?;
        Ok(NetParts {
            net,
            config,
            start: self.start(),
            end: self.end(),
        })
    }
}
