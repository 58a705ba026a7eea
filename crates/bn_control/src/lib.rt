//! The finite control of a uniform machine of quadruples, as a reversible sequential machine, and the names of its
//! states in order, one for each column of the control's bank in a circuit.
#![tactic(auto)]

mod command;
mod count;
mod draft;
mod entries;
mod finite;
mod line;
mod make;
mod name;
mod named;
mod names;
mod numbered;
mod order;
mod shown;
mod states;

pub use bn_network::MOST_SYMBOLS;
pub use count::state_count;
pub use finite::Control;
pub use make::{MOST_QUADRUPLES, MOST_STATES, control, most_quadruples_are_stated};
pub use name::{StateName, Symbols};
pub use names::state_names;
