//! Equality of states of reversible sequential machines: whether two states return the same outputs for every sequence
//! of input ports, and the least sequence that distinguishes them.
#![tactic(auto)]

mod apart;
mod classes;
mod comparison;
mod explore;
mod laws;
mod meeting;
mod pair;
mod rows;
mod search;

pub use comparison::{Comparison, Difference, compare};
pub use laws::equal_laws;
