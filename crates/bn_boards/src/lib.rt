//! The circuit of rotary elements of any network of modules (*board* in names), and how it is read: each module is a
//! bank of columns of rotary elements, and one move of the network is one crossing of a bank. The circuit's exits,
//! its moments, the tapes that its cells show, its cost, and what all circuits of one machine share. Definitions,
//! their types and laws.
#![tactic(auto)]

mod exit;
mod laws;
mod spelled;

pub use exit::Exit;
pub use laws::boards_laws;
pub use spelled::{Cells, Spelled, SpelledTape};
