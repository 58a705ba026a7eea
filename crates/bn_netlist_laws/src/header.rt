//! The contents of the lines before those of the elements.

use crate::version::Version;
use bn_circuits::{Line, Place};

/// The header of a configuration text. Elements and ports are counted from 0.
#[derive(Drop)]
pub struct Header {
    /// The version of the text.
    pub version: Version,
    /// The number of elements.
    pub count: u32,
    /// The start, an input port.
    pub start: Line,
    /// The end, an output port.
    pub end: Line,
    /// The count of element steps.
    pub steps: u64,
    /// Where the signal is.
    pub place: Place,
}
