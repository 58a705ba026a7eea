//! The machine that leaves only its output (Bennett 1973): two tables' machines over one alphabet, the erasing machine
//! of two machines in standard form, and the printed names of its states and symbols.
#![tactic(auto)]

mod erasing;
mod joined;
mod laws;
mod naming;
mod refusal;

pub use bn_erase_laws::ErasingName;
pub use erasing::{Erasing, MOST_QUADRUPLES, erase};
pub use joined::{Joined, join_letters};
pub use laws::erase_joining_laws;
pub use naming::erasing_names;
pub use refusal::EraseRefusal;
