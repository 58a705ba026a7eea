//! Tables of quadruples: csv texts of the quadruples of a machine of three tapes, with names for its states and
//! its symbols.
#![tactic(auto)]

mod draft;
mod entry;
mod laws;
mod lists;
mod refusal;
mod tape_word;
mod text;

pub use entry::MOST_ENTRIES;
pub use laws::qtable_laws;
pub use refusal::QuadTableRefusal;
pub use tape_word::{TapeWord, TapeWords};
pub use text::{read_quads, write_quads};
