//! Laws on the least window of a machine of quadruples and on the runs of its circuits.
#![tactic(auto)]

mod laws;

pub use laws::room_laws;
