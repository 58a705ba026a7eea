//! Floor plans of circuits of rotary elements: the elements side by side, each wire on a track, and the least number
//! of tracks.
#![tactic(auto)]

mod floor;
mod free_tracks;
mod laws;
mod make;
mod positions;
mod sweep;
mod tracked;

pub use floor::Plan;
pub use laws::plan_laws;
pub use make::plan;
pub use positions::MOST_PLANNED;
pub use tracked::Tracked;
