//! The inverse circuit (`mirror`) of a circuit of rotary elements: a circuit whose steps undo the steps of the first.
#![tactic(auto)]

mod laws;
mod make;

pub use laws::mirror_laws;
pub use make::mirror;
