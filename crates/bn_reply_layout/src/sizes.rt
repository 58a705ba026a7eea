//! The numbers of symbols on the tapes of a table's reversible machine.

ghost use Rattle.std.specs.Prelude.{◌≡◌, ◌+◌, length};
ghost use Rattle.bn_cell.specs.Sizes.{IsCellSize};

use bn_table::Table;

/// The symbols of tapes 1 and 3: the table's letters.
pub(crate) fn letters_of(table: &Table) -> u32
    ensures number { result ≡ table.now.machine.symbols }
    ensures size { IsCellSize result }
{
    table.machine().symbols()
}

/// The symbols of tape 2, the history: the blank, and one for each quintuple.
pub(crate) fn history_of(table: &Table) -> u32
    ensures number { result ≡ length table.now.machine.quints + 1 }
    ensures size { IsCellSize result }
{
    table.machine().quints().len() as u32 + 1
}
