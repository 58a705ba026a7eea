//! Circuits of any uniform machine of quadruples: the answers of `build` and `drive`; where the signal is, reported by
//! the names of the machine's table; and the laws on both.
#![tactic(auto)]

mod awaited;
mod build;
mod drive;
mod drive_text;
mod drives;
mod laws;
mod opening;
mod outcome;
mod outcome_text;
mod run_for;
mod scanned;
mod sizes;
mod stop;

pub use awaited::counts_of_machine;
pub use build::answer_build;
pub use drive::reply_drive;
pub use drives::drive_laws;
pub use laws::reply_builds_laws;
pub use opening::{OpenedBuild, open_build};
pub use outcome::{Outcome, Stop, outcome_of};
pub use outcome_text::{TableNames, push_outcome, push_state, push_tapes};
pub use sizes::{CrowdedTape, find_crowded, too_crowded};
