//! The answer of the command `walk`.
#![tactic(auto)]

mod laws;
mod packed;
mod refuse;
mod view_text;
mod walk;

pub use laws::reply_walks_laws;
pub use walk::reply_walk;
