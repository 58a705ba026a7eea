//! How far the heads of a machine of quadruples go, and the least window in which its run ends as the machine itself
//! does.
#![tactic(auto)]

mod laws;

pub use laws::rooms_laws;
