//! The shared parts of this project's readers and writers of csv tables: the entries of some bytes, the forms of names
//! and symbols, numbering by first appearance, and one line of text for each entry.
#![tactic(auto)]

mod drafts;
mod entries;
mod forms;
mod laws;
mod names;
mod writer;

pub use drafts::{TableDraft, read_entries};
pub use entries::{Entries, Entry};
pub use forms::{is_letter, is_state_name, is_symbol};
pub use laws::csv_laws;
pub use names::Names;
pub use writer::EntryWriter;
