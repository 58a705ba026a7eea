//! A farm of circuits under a schedule: several independent circuits in one text, the events on them, and the schedule
//! that undoes them.
#![tactic(auto)]

mod event;
mod farm;
mod farm_reader;
mod farm_refusal;
mod laws;
mod order;
mod refusal;
mod schedule;
mod schedule_reader;
mod take_order;
mod write;

pub use event::Event;
pub use farm::Farm;
pub use farm_reader::{MOST_FARM_BYTES, read_farm};
pub use farm_refusal::FarmRefusal;
pub use laws::farm_laws;
pub use schedule::Schedule;
pub use write::write_farm;
