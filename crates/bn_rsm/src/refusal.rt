//! Refusals of the calls of this crate.

use bn_lists::NoMemory;

/// Why moves do not form a reversible sequential machine. Moves are counted from 1. Move `j` is the first faulty one.
/// A move is checked first for `Range`, then for `SameDomain`, then for `SameRange`.
#[derive(Clone, Copy, PartialEq, Eq, Debug)]
pub enum RsmRefusal {
    /// Move `j` is the first faulty one, and move `i` is the first earlier one that leaves the same pair of state and
    /// port.
    SameDomain {
        /// The earlier move's number, from 1.
        i: u32,
        /// The faulty move's number, from 1.
        j: u32,
    },
    /// Move `j` is the first faulty one, and move `i` is the first earlier one that leads to the same pair of state
    /// and port.
    SameRange {
        /// The earlier move's number, from 1.
        i: u32,
        /// The faulty move's number, from 1.
        j: u32,
    },
    /// Move `j` is the first faulty one, and one of its states or ports is out of range.
    Range {
        /// The faulty move's number, from 1.
        j: u32,
    },
    /// Memory ran out.
    NoMemory,
}

impl From<NoMemory> for RsmRefusal {
    ghost use Rattle.std.specs.Prelude.{◌≡◌};
    ghost use Rattle.bn_rsm.specs.declared.refusal.RsmRefusal.TheVariants.{NoMemory};

    ghost from_gives = { λ _ refusal. refusal ≡ NoMemory };

    fn from(_want: NoMemory) -> RsmRefusal {
        RsmRefusal::NoMemory
    }
}
