//! Tape cells: the reversible sequential machine that stores one symbol of a tape, and whether the head is there.
#![tactic(auto)]

mod laws;
mod make;
mod numbers;
mod table;

pub use bn_network::{CellLine, MOST_SYMBOLS};
pub use laws::cell_laws;
pub use make::cell;
pub use numbers::{line_number, line_of, state_number};
pub use table::CellTable;
