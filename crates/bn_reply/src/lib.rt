//! What the replies of all commands share: the status, the reply, its end, and the opening of a table and of a word.
#![tactic(auto)]

mod letters;
mod limits;
mod lines;
mod opening;
mod pieces;
mod reply;
mod status;
mod writing;

pub use letters::push_letters;
pub use limits::{MOST_INPUT_BYTES, most_input_bytes_are_stated};
pub use lines::{empty_text, field_text, record_text, why_text};
pub use opening::{
    Judged, OpenedTable, OpenedWord, foreign_letter, judge_table, open_table, open_word, too_long,
};
pub use pieces::{push, push_counted, push_position};
pub use reply::Reply;
pub use status::Status;
pub use writing::{finish, give_reply, tell_long_input, tell_read_fault};
