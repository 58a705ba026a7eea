//! The command `window`.

ghost use Rattle.std.specs.Prelude.{◌≡◌, ◌≢◌, ◌≤◌, [], All, IfOk};
ghost use Rattle.bn_reply.specs.Lines.{running_line};
ghost use Rattle.bn_reply.specs.TableReply.{JudgedReplies, WordReplies};
ghost use Rattle.bn_reply_windows.specs.WindowReply.{TellsWindow, WindowReplies, least_line};
ghost use Rattle.bn_reply_windows.specs.WindowRun.{limits_of};

use crate::window_run::{LeastWindow, find_window};
use bn_base::MOST_COUNT;
use bn_lists::NoMemory;
use bn_reply::{
    Judged, OpenedTable, OpenedWord, Reply, Status, judge_table, open_table, open_word,
};
use bn_table::Table;
use std::alloc::Global;

/// The answer of `window` to a word, a greatest number of steps and some bytes: the least window in which the bounded
/// run of the table's machine from the word ends as the machine itself does, halted or stuck; or that the machine still
/// runs after these steps. Refusals are those of `reply_machine`.
pub fn reply_window(
    alloc: Global,
    word: &[u8],
    most_steps: u32,
    bytes: &[u8],
) -> Result<Reply, NoMemory>
    requires { most_steps ≤ MOST_COUNT }
    ensures { IfOk result (λ r. WindowReplies word.now most_steps bytes.now r.status r.text.items []) }
{
    match open_table(alloc, bytes)? {
        OpenedTable::Refused(reply) => Ok(reply),
        OpenedTable::Read(table) => window_of_table(alloc, &table, word, most_steps),
    }
}

// The answer to a table.
fn window_of_table(
    alloc: Global,
    table: &Table,
    word: &[u8],
    most_steps: u32,
) -> Result<Reply, NoMemory>
    requires { most_steps ≤ MOST_COUNT }
    ensures { IfOk result (λ r. JudgedReplies
        (WordReplies (TellsWindow table.now most_steps) table.now word.now) table.now r.status r.text.items []) }
{
    match judge_table(alloc, table)? {
        Judged::Refused(reply) => Ok(reply),
        Judged::Standard(_) => window_of_word(alloc, table, word, most_steps),
    }
}

// The answer to a word for a table's machine.
fn window_of_word(
    alloc: Global,
    table: &Table,
    word: &[u8],
    most_steps: u32,
) -> Result<Reply, NoMemory>
    requires { most_steps ≤ MOST_COUNT }
    ensures { IfOk result (λ r. WordReplies (TellsWindow table.now most_steps) table.now word.now
        r.status r.text.items []) }
{
    match open_word(alloc, table, word)? {
        OpenedWord::Refused(reply) => Ok(reply),
        OpenedWord::Symbols(symbols) => {
            window_of_symbols(alloc, table, symbols.as_slice(), most_steps)
        }
    }
}

// The answer to the symbols of a word.
fn window_of_symbols(
    alloc: Global,
    table: &Table,
    symbols: &[u32],
    most_steps: u32,
) -> Result<Reply, NoMemory>
    requires few { most_steps ≤ MOST_COUNT }
    requires letters { All (λ symbol. symbol ≢ 0) symbols.now }
    ensures { IfOk result (λ r. TellsWindow table.now most_steps symbols.now r.status r.text.items []) }
{
    match find_window(alloc, table.machine(), symbols, most_steps)? {
        Some(window) => Ok(Reply {
            text: window_text(alloc, window)?,
            status: Status::Done,
        }),
        None => Ok(Reply {
            text: running_text(alloc, most_steps)?,
            status: Status::Inside,
        }),
    }
}

// The line of a window.
fn window_text(alloc: Global, window: LeastWindow) -> Result<Vec<u8>, NoMemory>
    ensures { IfOk result (λ text. text.items ≡ least_line (limits_of window)) }
{
    let LeastWindow {
        left,
        right,
        steps,
        output,
    } = window;
    Ok(format!(in alloc; "window {left} {right} {steps} {output}\n")?.into_bytes())
}

// The line of a run that has made all its steps.
fn running_text(alloc: Global, steps: u32) -> Result<Vec<u8>, NoMemory>
    ensures { IfOk result (λ text. text.items ≡ running_line steps) }
{
    Ok(format!(in alloc; "running {steps}\n")?.into_bytes())
}
