//! Why a machine is not converted to standard form.

use bn_lists::NoMemory;

/// Why a machine is not converted to standard form: the first of three tests, in this order, that fails. Quintuples are
/// counted from 1.
#[derive(Clone, Copy, PartialEq, Eq, Debug)]
pub enum LooseRefusal {
    /// Quintuples `i` and `j` share state and scanned symbol: the least `i` that shares with a later one, and the
    /// least such `j`.
    Repeat { i: u32, j: u32 },
    /// Quintuple `i` is the first that leaves the halting state, which is the next state of the last quintuple.
    Halting { i: u32 },
    /// The machine in standard form would have `count` quintuples, more than a table may have.
    Many { count: u32 },
    /// Memory ran out.
    NoMemory,
}

impl From<NoMemory> for LooseRefusal {
    ghost use Rattle.bn_standardise.specs.declared.refusal.LooseRefusal.TheVariants as refusal;
    ghost use Rattle.std.specs.Prelude.{◌≡◌};

    ghost from_gives = { λ _ result. result ≡ refusal.NoMemory };

    fn from(_: NoMemory) -> LooseRefusal {
        LooseRefusal::NoMemory
    }
}
