//! Conversion of deterministic machines to standard form: the list of quintuples that converts a machine whose run
//! begins on the first letter of its word to standard form (after Bennett), its text as a table, and laws on the two
//! runs.
#![tactic(auto)]

mod acceptance;
mod laws;
mod listing;
mod machine;
mod name;
mod numbering;
mod refusal;
mod rule;
mod text;

pub use laws::standardise_laws;
pub use machine::standardise;
pub use refusal::LooseRefusal;
pub use text::standard_text;
