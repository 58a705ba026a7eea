//! The reply of the command `equal`: whether a state of one sequential machine and a state of another give the same
//! outputs for every sequence of input lines.
#![tactic(auto)]

mod equal;
mod laws;
mod read;
mod second;
mod text;

pub use equal::reply_equal;
pub use laws::reply_equal_laws;
