//! The ports of a tape cell.

/// A port of a tape cell (own to this project). An input port and the output port of the same name belong together.
/// Signals of the first five ports enter at the left and leave at the right; signals of the others enter at the right
/// and leave at the left.
#[derive(Clone, Copy, PartialEq, Eq, Debug)]
pub enum CellLine {
    /// A command to the cell with the head: return the symbol, and become blank.
    Read,
    /// A command to the cell with the head, which is blank: store this symbol.
    Write(u32),
    /// A command to the cell with the head: pass the head to the right neighbour.
    ShiftRight,
    /// A command to the cell with the head: pass the head to the left neighbour.
    ShiftLeft,
    /// The head arrives from the left neighbour.
    TakeRight,
    /// The reply to `Read`: this symbol.
    Answer(u32),
    /// The reply to `Write`.
    DoneWrite,
    /// The reply to `ShiftRight`.
    DoneRight,
    /// The reply to `ShiftLeft`.
    DoneLeft,
    /// The head arrives from the right neighbour.
    TakeLeft,
}
