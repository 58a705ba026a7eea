//! The answers of the commands that turn a machine, a word and a window into a circuit: `compile`, `run` and
//! `generate`; and the pieces of their texts that other commands share.
#![tactic(auto)]

mod compile;
mod generate;
mod laws;
mod line_names;
mod opening;
mod run;
mod run_text;
mod tape_text;

pub use compile::{answer_compile, board_config};
pub use generate::reply_generate;
pub use laws::reply_boards_laws;
pub use line_names::{SymbolCounts, counts_of_table, push_cell_line, push_control_line};
pub use opening::{
    OpenedInput, OpenedMachine, OpenedWindow, open_board, open_input, open_machine, open_window,
};
pub use run::{Ran, reply_run, run_to_exit, status_of};
pub use run_text::{push_exit, push_inside, push_window, text_of_run};
pub use tape_text::{push_bounds, push_tapes};
