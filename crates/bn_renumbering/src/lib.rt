//! Laws on machines of quadruples that are written with names and read again: the machine that is read is the one
//! that was written, with renumbered states and symbols. Definitions and laws; no code.
#![tactic(auto)]

mod laws;

pub use laws::renumbering_laws;
