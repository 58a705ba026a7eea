//! Sessions on a circuit: scripts of commands, how they are read, and how they are played.
#![tactic(auto)]

mod board;
mod breaks;
mod command;
mod condition;
mod label;
mod laws;
mod lines;
mod playable;
mod player;
mod port;
mod refusal;
mod scope;
mod script;
mod sentence;
mod shows;
mod standing;
mod states;
mod walk;

pub use command::Command;
pub use label::Label;
pub use laws::session_laws;
pub use lines::place_text;
pub use playable::Playable;
pub use player::{play, play_on};
pub use refusal::ScriptRefusal;
pub use script::{Script, read_circuit_script, read_script};
pub use shows::Shows;
