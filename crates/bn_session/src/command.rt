//! The commands of a script.

use crate::label::Label;

/// A command of a script (this project's own definition).
#[derive(Drop)]
pub enum Command {
    /// Makes at most this many element steps forward.
    Step(u64),
    /// Undoes at most this many element steps.
    Back(u64),
    /// Makes element steps forward, at least one if possible, until a breakpoint holds, no step is possible, or this
    /// many are made. The number is at least 1.
    Go(u64),
    /// The same backward.
    Rev(u64),
    /// Sets a breakpoint that holds at each moment of a state of the quadruple machine, counted from 0.
    BreakState {
        /// The breakpoint's label.
        label: Label,
        /// The state's number.
        state: u32,
    },
    /// Sets a breakpoint that holds where the signal enters an element, counted from 0.
    BreakElement {
        /// The breakpoint's label.
        label: Label,
        /// The element's number: at most 2^62. The circuit may have no such element.
        element: u64,
    },
    /// Sets a breakpoint that holds where the signal is about to enter a port of an element, both counted from 0.
    BreakLine {
        /// The breakpoint's label.
        label: Label,
        /// The element's number: at most 2^62. The circuit may have no such element.
        element: u64,
        /// The port: `NORTH`, `EAST`, `SOUTH` or `WEST`.
        line: u32,
    },
    /// Removes the breakpoint with this label.
    Drop(Label),
    /// Shows the circuit.
    View,
}
