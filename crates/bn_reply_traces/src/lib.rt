//! The answers of `trace` and `moments`, which print a machine's own run, one configuration a line, without a circuit.
#![tactic(auto)]

mod extent;
mod laws;
mod moments;
mod outcome;
mod quad_run;
mod quad_stage;
mod quad_text;
mod stage;
mod tape_text;
mod trace;

pub use laws::reply_traces_laws;
pub use moments::{answer_moments, answer_three_moments};
pub use trace::answer_trace;
