//! The base of every circuit of Hithwelor: ports (`Line`), wires and places, circuits of reversible elements, and the
//! step of the one signal forward and backward.
#![tactic(auto)]

mod config;
mod end;
mod laws;
mod line;
mod net;
mod place;
mod refusal;
mod rotary;
mod row_map;
mod watch;

pub use config::{CLOCK, Config, States};
pub use laws::circuits_laws;
pub use line::{Line, Wire};
pub use net::{MOST_ELEMENTS, Net};
pub use place::Place;
pub use refusal::NetRefusal;
pub use rotary::rotary_net;
pub use watch::{MemWatch, Quiet, Watch};
