//! Numbers and lines, the parts of all texts of this project, and inputs of two parts.
#![tactic(auto)]

mod cut;
mod laws;
mod limits;
mod lines;
mod numbers;

pub use bn_lists::NoMemory;
pub use cut::cut_input;
pub use laws::base_laws;
pub use limits::MOST_COUNT;
pub use lines::{Lines, NextLine};
pub use numbers::{Digits, GREATEST, push_u64, read_u64};
