//! The replies of the commands on two tables, `erase` and `erase =W n`: the machine that leaves only its output, and
//! its run from a word.
#![tactic(auto)]

mod erase;
mod laws;
mod letters;
mod pair;
mod run;

pub use erase::{reply_erase, reply_erase_run};
pub use laws::reply_erase_laws;
