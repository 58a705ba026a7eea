//! Ports of elements, and the wires between them.

/// A port of an element: an input port or an output port, as its context says. Elements and ports are counted from 0.
#[derive(Clone, Copy, PartialEq, Eq, Debug)]
pub struct Line {
    /// The element's number, from 0.
    pub element: u32,
    /// The port's number at that element, from 0.
    pub line: u32,
}

/// A wire from an output port to an input port.
#[derive(Clone, Copy, PartialEq, Eq, Debug)]
pub struct Wire {
    /// The output port that the wire leaves.
    pub from: Line,
    /// The input port at which it ends.
    pub to: Line,
}
