//! The command `play`.

ghost use Rattle.std.specs.Prelude.{◌≡◌, [], ℕ, IfOk};
ghost use Rattle.bn_quad.specs.Quadruples.{Configuration};
ghost use Rattle.bn_qtable.specs.Rows.{table_of};
ghost use Rattle.bn_qtable.specs.TapeWords.{tape_words_of};
ghost use Rattle.bn_network.specs.Limits.{AreSmall};
ghost use Rattle.bn_network.specs.Starts.{words_on};
ghost use Rattle.bn_network_assembly.specs.Assembled.{limits_of};
ghost use Rattle.bn_board.specs.Flattened.{IsBoardKept};
ghost use Rattle.bn_boards.specs.Builds.{Build, start_of};
ghost use Rattle.bn_reply_builds.specs.BuildReply.{BuiltReplies};
ghost use Rattle.bn_reply_looks.specs.Built.{CanBeShown, IsRunOf};
ghost use Rattle.bn_reply_looks.specs.PlayReply.{IsPlayOf, PlayReplies, TellsPlay};

use crate::viewer::Viewer;
use bn_base::cut_input;
use bn_board::Board;
use bn_lists::NoMemory;
use bn_network_assembly::Windows;
use bn_qtable::TapeWords;
use bn_quad::{QuadNames, Uniform};
use bn_reply::{Reply, Status};
use bn_reply_builds::{OpenedBuild, open_build};
use bn_reply_scripts::{refuse_script, without_script};
use bn_session::{Script, play, read_script};
use std::alloc::Global;

/// The answer of `play` to words on the tapes, a window and some bytes, which are a table, a line `%` and a script. It
/// refuses, in this order: bytes without such a line; whatever `build` refuses of the table and the words; a script
/// with an error. Otherwise the answer is that of the script, played on the circuit from its start.
pub fn reply_play(
    alloc: Global,
    words: &TapeWords,
    windows: &Windows,
    bytes: &[u8],
) -> Result<Reply, NoMemory>
    requires { AreSmall (limits_of windows.now) }
    ensures { IfOk result (λ r. PlayReplies (tape_words_of words.now) (limits_of windows.now) bytes.now
        r.status r.text.items []) }
{
    match cut_input(bytes) {
        Some((table, script)) => play_input(alloc, words, windows, table, script),
        None => without_script(alloc),
    }
}

// The answer to the bytes of a table and a script.
fn play_input(
    alloc: Global,
    words: &TapeWords,
    windows: &Windows,
    table: &[u8],
    script: &[u8],
) -> Result<Reply, NoMemory>
    requires { AreSmall (limits_of windows.now) }
    ensures { IfOk result (λ r.
        BuiltReplies (λ t one two three. TellsPlay script.now t (words_on t.machine one two three))
        (tape_words_of words.now) (limits_of windows.now) table.now r.status r.text.items []) }
{
    match open_build(alloc, words, windows, table)? {
        OpenedBuild::Refused(reply) => Ok(reply),
        OpenedBuild::Made(machine, names, mut board) => {
            play_board(alloc, &machine, &names, &mut board, script)
        }
    }
}

// The answer to a script and a circuit at its start.
fn play_board(
    alloc: Global,
    machine: &Uniform,
    names: &QuadNames,
    board: &mut Board,
    script: &[u8],
) -> Result<Reply, NoMemory>
    requires shown { CanBeShown machine.now names.now board.old }
    requires kept { IsBoardKept board.old }
    ensures { IfOk result (λ r. (f : Build) (c : Configuration ℕ) → IsRunOf machine.now f c board.old
        → board.old.config ≡ start_of f c
        → TellsPlay script.now (table_of machine.now names.now) c f r.status r.text.items []) }
{
    match read_script(alloc, script, names) {
        Ok(script) => play_script(alloc, machine, names, board, &script),
        Err(refusal) => refuse_script(alloc, refusal),
    }
}

// The answer to a script that is played on a circuit at its start.
fn play_script(
    alloc: Global,
    machine: &Uniform,
    names: &QuadNames,
    board: &mut Board,
    script: &Script,
) -> Result<Reply, NoMemory>
    requires shown { CanBeShown machine.now names.now board.old }
    requires kept { IsBoardKept board.old }
    ensures status { IfOk result (λ r. r.status ≡ Status.Done) }
    ensures text { IfOk result (λ r. (f : Build) (c : Configuration ℕ) → IsRunOf machine.now f c board.old
        → board.old.config ≡ start_of f c
        → IsPlayOf (table_of machine.now names.now) c f script.now r.text.items) }
{
    let mut text = Vec::new(alloc);
    let viewer = Viewer { machine, names };
    play(alloc, board, script, &viewer, &mut text)?;
    Ok(Reply {
        text,
        status: Status::Done,
    })
}
