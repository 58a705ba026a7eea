//! Bennett's translation (1973) of a machine in standard form into a reversible machine with three tapes.
#![tactic(auto)]

mod draft;
mod laws;
mod listing;
mod naming;
mod rule;
mod translated;

pub use laws::bennett_translation_laws;
pub use naming::{add_history_symbols, add_letters, name_text, names};
pub use translated::{MachineState, Stage, Translated, translate};
