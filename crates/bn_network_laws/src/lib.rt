//! Laws on the network of the finite control and the tape cells: the effect of one command on the cells of a tape,
//! the network's path from moment to moment in counted moves, and the place where it stops with a machine that is
//! stuck. Definitions and laws; no code.
#![tactic(auto)]

mod laws;
mod stops;

pub use laws::network_laws;
pub use stops::stop_laws;
