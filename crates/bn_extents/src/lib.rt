//! How far the head of a machine goes, and the least window in which its bounded run ends as the machine itself does.
#![tactic(auto)]

mod laws;

pub use laws::extents_laws;
