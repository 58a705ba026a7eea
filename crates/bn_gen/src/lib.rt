//! Example machines: k increments of a binary number, one after another.
#![tactic(auto)]

mod laws;
mod machine;
mod rounds;
mod text;

pub use laws::gen_laws;
pub use machine::{MOST_INCREMENTS, increments};
pub use text::increments_text;
