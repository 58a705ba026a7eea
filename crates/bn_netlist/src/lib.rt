//! Configuration texts of circuits of rotary elements, in two versions: reading, with the exact line of the first
//! fault, and writing, from bytes, to bytes and in pieces.
#![tactic(auto)]

mod bytes;
mod column;
mod column_lines;
mod cursor;
mod draft;
mod entries;
mod finish;
mod forms;
mod from_wires;
mod front;
mod header_lines;
mod inner;
mod laws;
mod line_buffer;
mod line_refusal;
mod net_config;
mod packed_config;
mod pieces;
mod read;
mod read_from;
mod refusal;
mod spellable;
mod spelled_out;
mod stage;
mod take_line;
mod write;
mod write_to;

pub use bn_netlist_laws::{MOST_ELEMENTS_IN_ONE, Version};
pub use bytes::Cursor;
pub use column::column_at;
pub use column_lines::column_rows;
pub use forms::{column_of, element_of, named_after, number_after, sides_of, version_of};
pub use from_wires::FromWires;
pub use front::LONGEST_LINE;
pub use header_lines::{take_count, take_end, take_place, take_start, take_steps, take_title};
pub use laws::netlist_laws;
pub use line_refusal::NetlistRefusal;
pub use net_config::NetConfig;
pub use packed_config::PackedConfig;
pub use read::read_config;
pub use read_from::{read_config_from, read_text};
pub use refusal::{FromRefusal, ToRefusal};
pub use spellable::Spellable;
pub use spelled_out::first_spelled_out;
pub use stage::Stage;
pub use write::write_config;
pub use write_to::write_config_to;
