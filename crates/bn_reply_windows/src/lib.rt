//! The answer of the command `window`: the least window of a machine and a word, from the machine's own run, without a
//! circuit.
#![tactic(auto)]

mod extent;
mod laws;
mod window;
mod window_run;

pub use laws::reply_windows_laws;
pub use window::reply_window;
