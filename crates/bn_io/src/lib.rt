//! Byte sources and byte sinks, and counts of their faults.
//!
//! Bytes are read through `Source` or `Input` and written through `Sink`. Each counts its failures. `read_all` and
//! `write_all` report a fault only if that count rose or is at its last value.
#![tactic(auto)]

mod giving;
mod input;
mod laws;
mod mem_sink;
mod mem_source;
mod reading;
mod sinks;
mod slice_input;
mod sources;
mod std_sink;
mod std_source;
mod vec_sink;
mod writing;

pub use bn_lists::NoMemory;
pub use giving::{PIECE, give_pieces};
pub use input::Input;
pub use laws::sizes_are_stated;
pub use mem_sink::MemSink;
pub use mem_source::MemSource;
pub use reading::{CHUNK, ReadRefusal, piece_size, read_all, read_whole};
pub use sinks::{Sink, SinkFailed};
pub use slice_input::SliceInput;
pub use sources::{Source, SourceFailed};
pub use std_sink::StdSink;
pub use std_source::StdSource;
pub use vec_sink::VecSink;
pub use writing::{WriteFault, write_all};
