//! Why bytes are refused as a table.

use bn_lists::NoMemory;

/// Why some bytes are not a table of quadruples. Entries and fields are counted from 1. The refusal names the first
/// faulty entry, with its first fault in this order: too many entries, the count of fields, the fields from 1 to 8.
#[derive(Clone, Copy, PartialEq, Eq, Debug)]
pub enum QuadTableRefusal {
    /// The entry does not have eight fields.
    FieldCount { entry: u32 },
    /// The field, 1 or 8, is not a state's name.
    Name { entry: u32, field: u32 },
    /// The field is not a symbol: a read, 2 to 4, that is not `/` either, or an action, 5 to 7, on a tape that is read.
    Symbol { entry: u32, field: u32 },
    /// The field, 5 to 7, is the action on a tape that is not read, and is none of `-`, `0` and `+`.
    Shift { entry: u32, field: u32 },
    /// The entry is preceded by `MOST_ENTRIES` others.
    TooMany { entry: u32 },
    /// There is no entry.
    Empty,
    /// Memory ran out.
    NoMemory,
}

impl From<NoMemory> for QuadTableRefusal {
    ghost use Rattle.bn_qtable.specs.declared.refusal.QuadTableRefusal.TheVariants as refusal;
    ghost use Rattle.std.specs.Prelude.{◌≡◌};

    ghost from_gives = { λ _ result. result ≡ refusal.NoMemory };

    fn from(_: NoMemory) -> QuadTableRefusal {
        QuadTableRefusal::NoMemory
    }
}
