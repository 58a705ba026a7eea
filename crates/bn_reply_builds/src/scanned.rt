//! The symbol that the head of a tape scans, by the cells of a circuit.

ghost use Rattle.std.specs.Prelude.{◌≡◌, ◌+◌, ℕ, Some, slice_get};
ghost use Rattle.bn_machine.specs.Tape.{Tape, scanned};
ghost use Rattle.bn_machine.specs.Window.{IsBetween};
ghost use Rattle.bn_boards.specs.Layouts.{tape_in};

use bn_board::SpelledTape;

/// The symbol in the cell of a tape's head, if a cell shows the head.
pub(crate) fn scanned_on(shown: &SpelledTape) -> u32
    ensures { (left right many : ℕ) (x : Tape) → shown.now ≡ tape_in left many x → many ≡ left + right + 1
        → IsBetween left right x.head → result ≡ scanned x }
{
    match shown.head {
        Some(head) => symbol_at(shown.cells.as_slice(), head.abs_diff(shown.first)),
        None => 0,
    }
}

// The symbol that the cell at this place, counted from 0, shows, if it shows one.
fn symbol_at(cells: &[Option<u32>], place: u64) -> u32
    ensures { (s : ℕ) → slice_get cells.now place ≡ Some (Some s) → result ≡ s }
{
    match cells.get(place as usize) {
        Some(cell) => cell.unwrap_or(0),
        None => 0,
    }
}
