//! Refusals of reading from a source and of writing to a sink.

use crate::line_refusal::NetlistRefusal;

/// Why no configuration was read from a source.
#[derive(Clone, Copy, PartialEq, Eq, Debug)]
pub enum FromRefusal {
    /// The source failed.
    ReadFault,
    /// The source gave more bytes than the limit.
    TooLong,
    /// The bytes up to the end of input are not a configuration text.
    Text(NetlistRefusal),
    /// Memory ran out.
    NoMemory,
}

/// Why a configuration was not written whole to a sink.
#[derive(Clone, Copy, PartialEq, Eq, Debug)]
pub enum ToRefusal {
    /// The sink failed.
    WriteFault,
    /// Memory ran out.
    NoMemory,
}
