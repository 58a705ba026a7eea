//! The answers of the commands on the behaviour of a circuit: `behaviour` and `crossings` on configuration texts, which
//! are read in pieces.
#![tactic(auto)]

mod behaviour;
mod crossings;
mod explore;
mod form;
mod laws;
mod lines;
mod names;
mod naming;
mod side;
mod text;

pub use behaviour::answer_behaviour;
pub use crossings::answer_crossings;
pub use laws::reply_behaviours_laws;
