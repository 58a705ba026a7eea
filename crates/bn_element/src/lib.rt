//! Elements that can be run backward, and the rotary element.
#![tactic(auto)]

mod element;
mod laws;
mod rotary;

pub use element::Element;
pub use laws::rotary_is_its_inverse;
pub use rotary::{EAST, HORIZONTAL, NORTH, Rotary, SOUTH, VERTICAL, WEST};
