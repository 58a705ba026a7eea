//! Wires on tracks.

use bn_circuits::Line;

/// A wire on a track of a floor plan. Elements and ports are counted from 0, tracks from 1. (This project's own
/// profile.)
#[derive(Clone, Copy, PartialEq, Eq, Debug)]
pub struct Tracked {
    /// The output port that the wire leaves.
    pub from: Line,
    /// The input port at which it ends.
    pub to: Line,
    /// Its track, from 1.
    pub track: u32,
}
