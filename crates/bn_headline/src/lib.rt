//! The headline by the machine alone: what `run` and `generate` print is what the machine's own bounded run names, in a
//! given window or in the automatic one; and `run =W auto` itself.
#![tactic(auto)]

mod auto;
mod laws;
mod round;
mod rounds;

pub use auto::reply_run_auto;
pub use laws::headline_laws;
