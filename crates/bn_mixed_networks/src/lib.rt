//! Circuits of rotary elements that realise networks of modules, each by a bank or by one rotary element.
#![tactic(auto)]

mod laws;

pub use laws::mixed_networks_laws;
