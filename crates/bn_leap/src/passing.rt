//! Ports at which runs stop, and the banks that runs pass through without a stop.

ghost use Rattle.std.specs.Bool.{OnTrue};

use crate::entry::Entry;
use bn_packed::{Nowhere, Stop};

/// Input ports at which a run stops, and the banks that contain none of these ports inside.
pub trait Passing: Stop {
    ghost use Rattle.bn_leap.specs.Inside.{PassesThrough};

    /// Whether a move of this bank meets none of these ports strictly between its ends. `true` is returned only if
    /// this is so; `false` may be returned in any case.
    fn passes_through(&self, bank: &Entry) -> bool
        ensures { OnTrue result (PassesThrough (Self.stops self.now) bank.now) };
}

impl Passing for Nowhere {
    fn passes_through(&self, _bank: &Entry) -> bool {
        true
    }
}
