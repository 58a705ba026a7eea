//! The answers of the commands on circuits, and of `compile` and `run`, exactly one for each input; and the headline:
//! the answer of a run reports what the machine's own bounded run determines. Definitions and laws; no code.
#![tactic(auto)]

mod laws;

pub use laws::reply_relations_laws;
