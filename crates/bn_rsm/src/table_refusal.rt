//! Why bytes are refused as a table.

use bn_lists::NoMemory;

/// Why some bytes are not a table of a reversible sequential machine. Entries, fields and moves are counted from 1.
/// The refusal names the first faulty entry with its first fault, in this order: too many entries, the count of
/// fields, the fields from 1 to 4. If no entry is faulty, the refusal names the first move that leaves or leads to the
/// same pair of state and port as an earlier one.
#[derive(Clone, Copy, PartialEq, Eq, Debug)]
pub enum RsmTableRefusal {
    /// The entry does not have four fields.
    FieldCount {
        /// The entry's number, from 1.
        entry: u32,
    },
    /// The field is not a number from 1 to `MOST_COUNT`.
    Number {
        /// The entry's number, from 1.
        entry: u32,
        /// The field's number, from 1.
        field: u32,
    },
    /// The entry comes after `MOST_ENTRIES` others.
    TooMany {
        /// The entry's number, from 1.
        entry: u32,
    },
    /// There is no entry.
    Empty,
    /// Move `j` leaves the same pair of state and port as the earlier move `i`, which is the first such move.
    SameDomain {
        /// The earlier move's number, from 1.
        i: u32,
        /// The faulty move's number, from 1.
        j: u32,
    },
    /// Move `j` leads to the same pair of state and port as the earlier move `i`, which is the first such move.
    SameRange {
        /// The earlier move's number, from 1.
        i: u32,
        /// The faulty move's number, from 1.
        j: u32,
    },
    /// Memory ran out.
    NoMemory,
}

impl From<NoMemory> for RsmTableRefusal {
    ghost use Rattle.bn_rsm.specs.declared.table_refusal.RsmTableRefusal.TheVariants as refusal;
    ghost use Rattle.std.specs.Prelude.{◌≡◌};

    ghost from_gives = { λ _ result. result ≡ refusal.NoMemory };

    fn from(_: NoMemory) -> RsmTableRefusal {
        RsmTableRefusal::NoMemory
    }
}
