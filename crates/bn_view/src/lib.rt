//! Views of a circuit: every layer of its configuration, and of the last moment that it reached.
#![tactic(auto)]

mod laws;
mod layers;
mod module_at;
mod viewer;

pub use laws::view_laws;
pub use layers::{BoardLayers, Layers, ModuleAt};
pub use viewer::{view, view_board};
