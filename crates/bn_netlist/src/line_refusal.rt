//! Refusals of reading a text.

/// Why bytes are not a configuration text: the first faulty line, counted from 1, and the first fault of that line.
#[derive(Clone, Copy, PartialEq, Eq, Debug)]
pub enum NetlistRefusal {
    /// The line is malformed. This includes a missing line, a line without its byte 10, a number that cannot be read,
    /// and bytes after the last line.
    Syntax {
        /// The line's number, from 1.
        line: u64,
    },
    /// The number in the line is not the next one.
    Order {
        /// The line's number, from 1.
        line: u64,
    },
    /// The line names an element that does not exist.
    Target {
        /// The line's number, from 1.
        line: u64,
    },
    /// A wire of the line leads to an input to which an earlier wire leads.
    TwoSources {
        /// The line's number, from 1.
        line: u64,
    },
    /// A wire of the line leads to the start.
    StartFed {
        /// The line's number, from 1.
        line: u64,
    },
    /// A wire of the line leaves the end.
    EndWired {
        /// The line's number, from 1.
        line: u64,
    },
    /// A wire of the line leaves the output by which the signal has left.
    LeftWired {
        /// The line's number, from 1.
        line: u64,
    },
    /// The number of elements in the line is above the limit of the version.
    TooMany {
        /// The line's number, from 1.
        line: u64,
    },
    /// The line is that of an element at which a column begins, and no line has another fault.
    Spelling {
        /// The line's number, from 1.
        line: u64,
    },
    /// Memory ran out.
    NoMemory,
}
