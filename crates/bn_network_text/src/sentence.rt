//! The contents of lines.

use crate::entry::Entry;

/// The contents of a line of a network text. Ports are a module's number, from 0, and a port of it, from 1.
#[derive(Drop)]
pub enum Sentence {
    /// The title.
    Title,
    /// The number of modules.
    Count(u64),
    /// The start, an input port.
    Start((u64, u64)),
    /// The end, an output port.
    End((u64, u64)),
    /// The input port that the signal is about to enter.
    At((u64, u64)),
    /// A module.
    Module(Entry),
}
