//! Reversible sequential machines given by their moves, and the cost of a move when the machine is built as a circuit.
#![tactic(auto)]

mod draft;
mod entry;
mod index;
mod laws;
mod refusal;
mod rsm;
mod rsm_move;
mod table_refusal;
mod text;

pub use entry::MOST_ENTRIES;
pub use laws::rsm_laws;
pub use refusal::RsmRefusal;
pub use rsm::Rsm;
pub use rsm_move::RsmMove;
pub use table_refusal::RsmTableRefusal;
pub use text::{read_rsm, write_moves, write_rsm};
