//! The network of a machine of quadruples: its finite control and the cells of its tapes, connected by wires.
#![tactic(auto)]

mod assembly;
mod make;
mod module;
mod modules;
mod refusal;
mod start;
mod widening;
mod windows;
mod wires;
mod words;

pub use assembly::Assembly;
pub use make::{assemble, assemble_words, element_count};
pub use module::Module;
pub use refusal::AssembleRefusal;
pub use widening::{first_windows, widen};
pub use windows::Windows;
pub use words::TapeSymbols;
