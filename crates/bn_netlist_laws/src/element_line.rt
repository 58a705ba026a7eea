//! The contents of the line of an element.

/// The contents of the line of an element, parsed and not yet checked.
#[derive(Drop)]
pub struct ElementLine {
    /// The element's number, from 0.
    pub number: u64,
    /// The state of its bar.
    pub state: u32,
    /// For each of its outputs, the element and the port to which its wire leads, or `None`; all are counted from 0.
    pub targets: [Option<(u64, u32)>; 4],
}
