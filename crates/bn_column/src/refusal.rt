//! Refusals of the calls of this crate.

use bn_lists::NoMemory;

/// Why a column was not made.
#[derive(Clone, Copy, PartialEq, Eq, Debug)]
pub enum ColumnRefusal {
    /// The number of rows is 0 or above 65,535.
    Rows,
    /// Memory ran out.
    NoMemory,
}

impl From<NoMemory> for ColumnRefusal {
    ghost use Rattle.std.specs.Prelude.{◌≡◌};
    ghost use Rattle.bn_column.specs.declared.refusal.ColumnRefusal.TheVariants.{NoMemory};

    ghost from_gives = { λ _ refusal. refusal ≡ NoMemory };

    fn from(_want: NoMemory) -> ColumnRefusal {
        ColumnRefusal::NoMemory
    }
}
