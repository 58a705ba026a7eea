//! Flat circuits (*board* in names): the network of a machine of quadruples as one net of rotary elements, with its
//! runs and its readings.
#![tactic(auto)]

mod bars;
mod board;
mod cells;
mod counting;
mod enter;
mod exit_of;
mod first_rows;
mod layout;
mod locate;
mod located;
mod make;
mod moment;
mod net_parts;
mod numbers;
mod wiring;

pub use bn_boards::{Cells, Exit, Spelled, SpelledTape};
pub use board::Board;
pub use located::Located;
pub use make::flatten;
pub use net_parts::NetParts;
