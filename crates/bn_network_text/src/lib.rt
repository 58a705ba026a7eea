//! Network texts: networks of sequential machines and rotary elements, read with the exact line of the first fault.
#![tactic(auto)]

mod draft;
mod entry;
mod fault;
mod forms;
mod header;
mod laws;
mod lines;
mod module;
mod network;
mod page;
mod ports;
mod read;
mod sentence;
mod shape;

pub use entry::{Entry, Kind};
pub use fault::{NetworkFault, NetworkRefusal};
pub use laws::network_text_laws;
pub use module::{MOST_MODULES, Module};
pub use network::Network;
pub use read::read_network;
pub use sentence::Sentence;
pub use shape::Shape;
