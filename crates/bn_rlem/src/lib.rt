//! The reversible elements with one bit of memory, by their numbers (Morita 2017): their moves.
#![tactic(auto)]

mod element;
mod laws;
mod permutation;

pub use element::{MOST_LINES, element_count, element_moves};
pub use laws::rlem_laws;
