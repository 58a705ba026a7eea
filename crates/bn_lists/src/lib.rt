//! Shared by all other crates: terms for lists and for runs of any step, which contracts use, and the refusal of a
//! call that runs out of memory.
#![tactic(auto)]

mod laws;
mod memory;

pub use laws::lists_laws;
pub use memory::NoMemory;
