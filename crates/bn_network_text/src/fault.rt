//! The faults of network texts.

use bn_lists::NoMemory;
use std::alloc::AllocError;

/// The faults of a line of a network text, in the order in which they are tested.
#[derive(Clone, Copy, PartialEq, Eq, Debug)]
pub enum NetworkFault {
    /// The line is malformed, missing, or one too many.
    Syntax,
    /// The text has more than `MOST_MODULES` modules.
    TooMany,
    /// The number of the line's module is not the next one.
    Order,
    /// The module's table does not exist.
    Table,
    /// The module's table does not have the state.
    State,
    /// A port that the line names does not exist.
    Target,
    /// A wire leaves the end.
    EndWired,
    /// A wire leads into the start.
    StartFed,
    /// An earlier wire leads to the same port.
    TwoSources,
}

/// Why bytes were not read as a network.
#[derive(Clone, Copy, PartialEq, Eq, Debug)]
pub enum NetworkRefusal {
    /// The first faulty line, counted from 1, and its first fault.
    Line {
        /// The number of the line.
        line: u64,
        /// Its first fault.
        fault: NetworkFault,
    },
    /// Out of memory.
    NoMemory,
}

impl From<NoMemory> for NetworkRefusal {
    ghost use Rattle.bn_network_text.specs.declared.fault.NetworkRefusal.TheVariants as refusal;
    ghost use Rattle.std.specs.Prelude.{◌≡◌};

    ghost from_gives = { λ _ result. result ≡ refusal.NoMemory };

    fn from(_: NoMemory) -> NetworkRefusal {
        NetworkRefusal::NoMemory
    }
}

impl From<AllocError> for NetworkRefusal {
    ghost use Rattle.bn_network_text.specs.declared.fault.NetworkRefusal.TheVariants as refusal;
    ghost use Rattle.std.specs.Prelude.{◌≡◌};

    ghost from_gives = { λ _ result. result ≡ refusal.NoMemory };

    fn from(_: AllocError) -> NetworkRefusal {
        NetworkRefusal::NoMemory
    }
}
