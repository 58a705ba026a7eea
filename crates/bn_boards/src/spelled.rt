//! The tapes that the cells of a circuit show.

use std::marker::Model;

/// The symbols that a tape's cells show, from left to right: none for a cell without a marked column. Contracts see
/// the list.
#[derive(Debug, Drop)]
pub struct Cells {
    items: Vec<Option<u32>>,
}

impl Model for Cells {
    ghost use Rattle.std.specs.Prelude.{ℕ, List, Option};

    ghost Value = { List (Option ℕ) };

    ghost view = { λ s. s.items.items };
}

impl Cells {
    ghost use Rattle.std.specs.Prelude.{◌≡◌};

    /// The cells with these symbols. It takes no memory.
    pub fn new(symbols: Vec<Option<u32>>) -> Cells
        ensures { result ≡ symbols.items }
    {
        Cells { items: symbols }
    }

    /// The symbols as a slice. It takes no memory.
    pub fn as_slice(&self) -> &[Option<u32>]
        ensures { result.now ≡ self.now }
    {
        self.items.as_slice()
    }
}

/// The contents of a tape, as its cells show them.
#[derive(Debug, Drop)]
pub struct SpelledTape {
    /// The position of the first cell.
    pub first: i64,
    /// The position of the first cell that shows the head; none if no cell does.
    pub head: Option<i64>,
    /// The symbol of each cell.
    pub cells: Cells,
}

/// The contents of the three tapes of a circuit.
#[derive(Debug, Drop)]
pub struct Spelled {
    /// Tape 1, the work tape.
    pub one: SpelledTape,
    /// Tape 2, the history.
    pub two: SpelledTape,
    /// Tape 3, the output.
    pub three: SpelledTape,
}
