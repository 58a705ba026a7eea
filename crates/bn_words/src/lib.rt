//! The arguments of a command line: what they ask for, and their one reader.
#![tactic(auto)]

mod laws;
mod read;
mod request;
mod word;

pub use laws::words_laws;
pub use read::read_words;
pub use request::{ConfigurationRequest, Request, WholeRequest};
