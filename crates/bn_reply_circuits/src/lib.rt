//! The answers of the commands on circuits: `step`, `back`, `plan`, `migrate` and `mirror` on configuration texts,
//! which are read and written in pieces, `realise`, `farm`, and `element`.
#![tactic(auto)]

mod config;
mod element;
mod farm;
mod laws;
mod migrate;
mod mirror;
mod plan;
mod plan_text;
mod realise;
mod refuse;
mod unwritten;
mod walk;

pub use config::{give_config, refuse_input};
pub use element::reply_element;
pub use farm::reply_farm;
pub use laws::reply_circuits_laws;
pub use migrate::answer_migrate;
pub use mirror::answer_mirror;
pub use plan::answer_plan;
pub use realise::answer_realise;
pub use unwritten::Unwritten;
pub use walk::{answer_back, answer_step};
