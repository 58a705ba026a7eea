//! The place of a circuit's signal, by modules.

/// The module in which the signal of a circuit is (own to this project). Ports are counted from 0.
#[derive(Clone, Copy, PartialEq, Eq, Debug)]
pub enum Located {
    /// In the control.
    Control {
        /// The control's input port, if the signal enters by one: the west of a row of its first column.
        line: Option<u32>,
    },
    /// In a tape cell.
    Cell {
        /// The tape, counted from 1.
        tape: u32,
        /// The cell's position on the tape.
        position: i64,
        /// The cell's input port, if the signal enters by one: the west of a row of its first column.
        line: Option<u32>,
    },
    /// In no module: the signal has left.
    Outside,
}
