//! The modules of a machine of quadruples, as definitions: the tape cell, the finite control, the network of both,
//! and the moments at which a network represents a configuration of the machine. Laws on the control of a uniform
//! machine: its moves are one-to-one, and it has exactly one order of its states and one table.
#![tactic(auto)]

mod cell_line;
mod laws;
mod limits;

pub use cell_line::CellLine;
pub use laws::network_definition_laws;
pub use limits::{MOST_DRIVE_STEPS, MOST_SYMBOLS};
