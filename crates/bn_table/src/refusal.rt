//! Why bytes are refused as a table.

use bn_lists::NoMemory;

/// Why some bytes are not a table of quintuples. Entries and fields are counted from 1. The refusal names the first
/// faulty entry, with its first fault in this order: too many entries, the count of fields, the fields from 1 to 5.
#[derive(Clone, Copy, PartialEq, Eq, Debug)]
pub enum TableRefusal {
    /// The entry does not have five fields.
    FieldCount { entry: u32 },
    /// The field, 1 or 5, is not a state's name.
    Name { entry: u32, field: u32 },
    /// The field, 2 or 3, is not a letter.
    Symbol { entry: u32, field: u32 },
    /// Field 4 is none of `-`, `0` and `+`.
    Shift { entry: u32 },
    /// The entry is preceded by `MOST_ENTRIES` others.
    TooMany { entry: u32 },
    /// There is no entry.
    Empty,
    /// Memory ran out.
    NoMemory,
}

impl From<NoMemory> for TableRefusal {
    ghost use Rattle.bn_table.specs.declared.refusal.TableRefusal.TheVariants as refusal;
    ghost use Rattle.std.specs.Prelude.{◌≡◌};

    ghost from_gives = { λ _ result. result ≡ refusal.NoMemory };

    fn from(_: NoMemory) -> TableRefusal {
        TableRefusal::NoMemory
    }
}
