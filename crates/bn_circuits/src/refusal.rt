//! The refusals of the calls of this crate.

use bn_lists::NoMemory;

/// Why some elements and wires are not a net. Wires are counted from 1.
#[derive(Clone, Copy, PartialEq, Eq, Debug)]
pub enum NetRefusal {
    /// Wire `i` is the first faulty one: its output port or its input port does not exist.
    Range {
        /// The wire's number, from 1.
        i: u32,
    },
    /// Wire `i` is the first faulty one: an earlier wire leaves the same output port.
    TwoTargets {
        /// The wire's number, from 1.
        i: u32,
    },
    /// Wire `i` is the first faulty one: an earlier wire ends at the same input port.
    TwoSources {
        /// The wire's number, from 1.
        i: u32,
    },
    /// Memory ran out.
    NoMemory,
}

impl From<NoMemory> for NetRefusal {
    ghost use Rattle.std.specs.Prelude.{◌≡◌};
    ghost use Rattle.bn_circuits.specs.declared.refusal.NetRefusal.TheVariants.{NoMemory};

    ghost from_gives = { λ _ refusal. refusal ≡ NoMemory };

    fn from(_want: NoMemory) -> NetRefusal {
        NetRefusal::NoMemory
    }
}
