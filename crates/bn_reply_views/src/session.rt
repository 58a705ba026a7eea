//! The command `session`.

ghost use Rattle.std.specs.Prelude.{◌≡◌, ℕ, [], List, IfOk};
ghost use Rattle.bn_network.specs.Limits.{AreSmall};
ghost use Rattle.bn_network_assembly.specs.Assembled.{limits_of};
ghost use Rattle.bn_machine.specs.Outcome.{Limits};
ghost use Rattle.bn_boards.specs.Flats.{Flat, flat_start};
ghost use Rattle.bn_reply_relations.specs.Windows.{WindowReplies};
ghost use Rattle.bn_view.specs.Viewed.{IsBoardFor};
ghost use Rattle.bn_reply_views.specs.SessionReply.{IsAnswerTo, SessionReplies, TellsSession};
ghost use Rattle.bn_reply_views.specs.Viewing.{MayShow};

use crate::viewer::Viewer;
use bn_base::cut_input;
use bn_bennett::{Translated, names};
use bn_board::Board;
use bn_lists::NoMemory;
use bn_network_assembly::Windows;
use bn_reply::{Reply, Status};
use bn_reply_boards::{OpenedInput, open_input};
use bn_reply_scripts::{refuse_script, without_script};
use bn_session::{Script, play, read_script};
use bn_table::Table;
use std::alloc::Global;

/// The answer of `session` to a word, a window and some bytes, which are a table, a line `%` and a script. It refuses,
/// in this order: bytes without such a line; a table whose machine is not in standard form; a word with other letters
/// or too long for the window; a circuit with too many elements; a script with an error. Otherwise the answer is that
/// of the script, played on the circuit from its start.
pub fn reply_session(
    alloc: Global,
    word: &[u8],
    windows: &Windows,
    bytes: &[u8],
) -> Result<Reply, NoMemory>
    requires { AreSmall (limits_of windows.now) }
    ensures { IfOk result (λ r. SessionReplies word.now (limits_of windows.now) bytes.now r.status r.text.items []) }
{
    match cut_input(bytes) {
        Some((table, script)) => session_input(alloc, word, windows, table, script),
        None => without_script(alloc),
    }
}

// The answer of `session` to the bytes of a table and a script.
fn session_input(
    alloc: Global,
    word: &[u8],
    windows: &Windows,
    table: &[u8],
    script: &[u8],
) -> Result<Reply, NoMemory>
    requires { AreSmall (limits_of windows.now) }
    ensures { IfOk result (λ r. WindowReplies (TellsSession script.now) word.now (limits_of windows.now) table.now
        r.status r.text.items []) }
{
    match open_input(alloc, word, windows, table)? {
        OpenedInput::Refused(reply) => Ok(reply),
        OpenedInput::Made(table, translated, mut board) => {
            session_board(alloc, &table, &translated, &mut board, script)
        }
    }
}

// The answer to a script and a circuit at its start.
fn session_board(
    alloc: Global,
    table: &Table,
    translated: &Translated,
    board: &mut Board,
    script: &[u8],
) -> Result<Reply, NoMemory>
    requires { MayShow table.now translated.now board.old }
    ensures { IfOk result (λ r. (word : List ℕ) (l : Limits) (f : Flat)
        → IsBoardFor table.now.machine word l f translated.now board.old → board.old.config ≡ flat_start f
        → TellsSession script.now table.now f r.status r.text.items []) }
{
    let names = names(alloc, table, translated)?;
    match read_script(alloc, script, &names) {
        Ok(script) => play_script(alloc, table, translated, board, &script),
        Err(refusal) => refuse_script(alloc, refusal),
    }
}

// The answer to a script that is played on a circuit at its start.
fn play_script(
    alloc: Global,
    table: &Table,
    translated: &Translated,
    board: &mut Board,
    script: &Script,
) -> Result<Reply, NoMemory>
    requires { MayShow table.now translated.now board.old }
    ensures status { IfOk result (λ r. r.status ≡ Status.Done) }
    ensures text { IfOk result (λ r. (word : List ℕ) (l : Limits) (f : Flat)
        → IsBoardFor table.now.machine word l f translated.now board.old → board.old.config ≡ flat_start f
        → IsAnswerTo table.now f script.now r.text.items) }
{
    let mut text = Vec::new(alloc);
    let viewer = Viewer { table, translated };
    play(alloc, board, script, &viewer, &mut text)?;
    Ok(Reply {
        text,
        status: Status::Done,
    })
}
