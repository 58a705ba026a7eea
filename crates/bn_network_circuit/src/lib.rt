//! The circuit of rotary elements of a network that a text describes.
#![tactic(auto)]

mod laws;

pub use laws::network_circuit_laws;
