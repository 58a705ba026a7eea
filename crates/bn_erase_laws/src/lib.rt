//! The machine that leaves only its output (Bennett 1973), as definitions: the reversible machine for x to y,
//! followed by the reversible machine for y to x, backward. Laws on lists of quadruples that are inverted, have tapes
//! 1 and 3 exchanged, or are joined in one state. Laws on the inverse of any machine of quadruples.
#![tactic(auto)]

mod inverses;
mod laws;
mod name;

pub use inverses::inverse_laws;
pub use laws::erase_laws;
pub use name::ErasingName;
