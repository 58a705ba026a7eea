//! The names of the ports of a behaviour, as a caller requests them.

/// The circuit's ports that are the ports of a behaviour, in order (this project's own profile). Each list has the
/// names of ports with a comma between two; a name is the element's number, counted from 0, a point, and one of the
/// letters n, e, s and w. No byte at all is the empty list. Port i of the first list is input port i of the behaviour,
/// and port i of the second its output port i.
#[derive(Clone, Copy, Debug)]
pub struct PortNames<'a> {
    /// The names of the free input ports.
    pub inputs: &'a [u8],
    /// The names of the free output ports.
    pub outputs: &'a [u8],
}
