//! Leaps over the banks of a board: if the signal is about to enter a bank, the whole move of the bank is made at
//! once.
#![tactic(auto)]

mod cost;
mod entry;
mod laws;
mod leap;
mod passing;
mod run;

pub use entry::{Banks, Entry};
pub use laws::leap_laws;
pub use passing::Passing;
pub use run::{run_leaping, run_leaping_until};
