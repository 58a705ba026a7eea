//! Tables of quintuples: csv texts of a machine's quintuples, with names for its states and letters for its
//! symbols.
#![tactic(auto)]

mod draft;
mod entry;
mod laws;
mod refusal;
mod table;
mod text;

pub use entry::MOST_ENTRIES;
pub use laws::table_laws;
pub use refusal::TableRefusal;
pub use table::{Table, place_of};
pub use text::{read_quints, write_quints, write_row};
