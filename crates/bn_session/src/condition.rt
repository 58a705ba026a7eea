//! When a breakpoint holds.

/// When a breakpoint holds.
#[derive(Clone, Copy, PartialEq, Eq, Debug)]
pub(crate) enum Condition {
    /// At each moment of a state of the quadruple machine, counted from 0.
    AtState(u32),
    /// Where the signal enters an element, counted from 0.
    AtElement(u64),
    /// Where the signal is about to enter this port of an element, both counted from 0.
    AtLine {
        /// The element.
        element: u64,
        /// The port.
        line: u32,
    },
}
