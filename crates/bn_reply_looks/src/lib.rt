//! The answers of the commands `look` and `play`: the layers of the circuit of a uniform machine of quadruples, and a
//! script that is played on it.
#![tactic(auto)]

mod laws;
mod look;
mod look_text;
mod play;
mod viewer;

pub use laws::reply_looks_laws;
pub use look::reply_look;
pub use play::reply_play;
