//! What the command `room` answers: the least window of a machine of quadruples and words on its tapes, from the
//! machine's own run, without a circuit.
#![tactic(auto)]

mod laws;
mod reach;
mod room;
mod room_run;

pub use laws::reply_rooms_laws;
pub use room::reply_room;
