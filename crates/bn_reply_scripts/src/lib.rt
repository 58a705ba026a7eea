//! The answers to inputs with a script: what the commands `session`, `play` and `walk` share.
#![tactic(auto)]

mod script_text;

pub use script_text::{refuse_script, without_script};
