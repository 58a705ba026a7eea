//! The answer of the command `layout`: the parts of the circuit of a machine and a word in a window, module by module,
//! with the names that `view` and breakpoints use.
#![tactic(auto)]

mod bank;
mod cell_text;
mod control_text;
mod laws;
mod layout;
mod layout_text;
mod module_text;
mod sizes;

pub use bank::{Bank, ModuleName};
pub use laws::reply_layout_laws;
pub use layout::{answer_layout, reply_layout};
