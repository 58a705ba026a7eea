//! Floor plans.

ghost use Rattle.std.specs.Prelude.{◌≡◌};

use crate::tracked::Tracked;
use std::marker::Model;

/// The floor plan of some wires: the elements lie side by side, and each wire has a track. Contracts see the wires
/// with their tracks, the number of tracks, and the densest position. (This project's own profile.)
#[derive(Debug, Drop)]
pub struct Plan {
    pub(crate) wires: Vec<Tracked>,
    pub(crate) tracks: u32,
    pub(crate) densest: u32,
}

impl Model for Plan {
    ghost use Rattle.bn_plan.specs.Plans.{FloorPlan};

    ghost Value = { FloorPlan };

    ghost view = { λ p. record { wires = p.wires.items; tracks = p.tracks; densest = p.densest } };
}

impl Plan {
    /// The number of tracks, 0 if there are no wires. It equals the greatest density, which is the number of wires
    /// that cover the densest position.
    pub fn tracks(&self) -> u32
        ensures { result ≡ self.now.tracks }
    {
        self.tracks
    }

    /// The densest position, counted from 0: the least of the positions that the greatest number of wires cover, and 0
    /// if there are no wires.
    pub fn densest(&self) -> u32
        ensures { result ≡ self.now.densest }
    {
        self.densest
    }

    /// The wires with their tracks, in the order of their lesser ends.
    pub fn wires(&self) -> &[Tracked]
        ensures { result.now ≡ self.now.wires }
    {
        self.wires.as_slice()
    }
}
