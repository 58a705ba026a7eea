//! One-tape Turing machines given by quintuples, tapes in a window of cells, and the machine's step.
#![tactic(auto)]

mod demands;
mod laws;
mod machine;
mod matching;
mod quint;
mod shifts;
mod standard;
mod tape;
mod why;

pub use laws::machine_laws;
pub use machine::{Machine, MachineRefusal, Turn};
pub use quint::{Quint, Shift, Side};
pub use shifts::{shift_of, text_of_shift};
pub use standard::{Standard, check};
pub use tape::{Tape, TapeRefusal};
pub use why::Why;
