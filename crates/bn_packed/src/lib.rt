//! Packed netlists: a net of rotary elements and a configuration of it, stored so that a step waits for memory once.
#![tactic(auto)]

mod bars;
mod cells;
mod direction;
mod draft;
mod ends;
mod packed;
mod signal;
mod stop;
mod to_net;
mod walk;
mod wires;
mod wiring;

pub use direction::Direction;
pub use draft::Draft;
pub use packed::Packed;
pub use stop::{Nowhere, Stop};
