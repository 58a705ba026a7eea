//! Where the signal is.

/// Where the one signal of a circuit is between two element steps.
#[derive(Clone, Copy, PartialEq, Eq, Debug)]
pub enum Place {
    /// It is about to enter this input port; both numbers are counted from 0.
    Enter {
        /// The element that it enters.
        element: u32,
        /// The input port of that element.
        line: u32,
    },
    /// It has left the circuit by this output port, which has no wire; both numbers are counted from 0.
    Left {
        /// The element that it left.
        element: u32,
        /// The output port of that element.
        line: u32,
    },
}
