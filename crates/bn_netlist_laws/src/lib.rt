//! The grammar of configuration texts, in both versions, and its laws: the configuration that a text spells, the first
//! faulty line of a text, and that each text has exactly one of the two.
#![tactic(auto)]

mod element_line;
mod header;
mod laws;
mod version;

pub use element_line::ElementLine;
pub use header::Header;
pub use laws::netlist_text_laws;
pub use version::{MOST_ELEMENTS_IN_ONE, Version};
