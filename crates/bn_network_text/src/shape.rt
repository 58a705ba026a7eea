//! What a network text needs to know of a table.

/// The numbers of a table of a sequential machine: how many states it has, and how many ports each way.
#[derive(Clone, Copy, PartialEq, Eq, Debug)]
pub struct Shape {
    /// The number of states.
    pub states: u32,
    /// The number of input ports, and of output ports.
    pub lines: u32,
}
