//! Laws on the least window of a machine and on the runs of its circuits.
#![tactic(auto)]

mod laws;

pub use laws::window_laws;
