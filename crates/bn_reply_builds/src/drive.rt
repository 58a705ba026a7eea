//! The command `drive`.

ghost use Rattle.std.specs.Prelude.{◌≡◌, ◌≤◌, ℕ, length, IfOk, OnErr};
ghost use Rattle.bn_machine.specs.Outcome.{Limits};
ghost use Rattle.bn_quad.specs.Quadruples.{Configuration};
ghost use Rattle.bn_qtable.specs.Rows.{counts_of, table_of};
ghost use Rattle.bn_qtable.specs.TapeWords.{tape_words_of};
ghost use Rattle.bn_network.specs.Limits.{AreSmall};
ghost use Rattle.bn_network_assembly.specs.Assembled.{limits_of};
ghost use Rattle.bn_boards.specs.Builds.{Build};
ghost use Rattle.bn_reply.specs.Replying.{IsReplied, IsUnfinished};
ghost use Rattle.bn_reply_boards.specs.Running.{IsAnswered};
ghost use Rattle.bn_reply_builds.specs.BuildReply.{IsBuiltFor};
ghost use Rattle.bn_reply_builds.specs.Opened.{IsBuiltBoard};
ghost use Rattle.bn_reply_builds.specs.DriveReply.{DriveReplies};
ghost use Rattle.bn_reply_builds.specs.Driven.{TellsDrive, TellsOutcome};
ghost use Rattle.bn_reply_builds.specs.Stopping.{HasFewSymbols};

use crate::drive_text::text_of_drive;
use crate::run_for::run_for;
use crate::{OpenedBuild, TableNames, open_build, outcome_of};
use bn_board::Board;
use bn_circuits::Watch;
use bn_lists::NoMemory;
use bn_network::MOST_DRIVE_STEPS;
use bn_network_assembly::Windows;
use bn_qtable::TapeWords;
use bn_quad::{QuadNames, Uniform};
use bn_reply::Reply;
use std::alloc::Global;

/// The answer of `drive` to words on the tapes, a window, a greatest number of element steps and some bytes: the
/// refusals of `build`; otherwise the run of the signal on the circuit from its start, for at most this many steps.
/// The place after each step is reported to the watch.
pub fn reply_drive<W: Watch>(
    alloc: Global,
    words: &TapeWords,
    windows: &Windows,
    most_steps: u64,
    bytes: &[u8],
    watch: &mut W,
) -> Result<Reply, NoMemory>
    requires windows { AreSmall (limits_of windows.now) }
    requires steps { most_steps ≤ MOST_DRIVE_STEPS }
    ensures replied { IfOk result (λ r.
        IsReplied (DriveReplies (tape_words_of words.now) (limits_of windows.now) most_steps bytes.now) r
        (W.told watch.old) (W.told watch.new)) }
    ensures interrupted { OnErr result
        (IsUnfinished (DriveReplies (tape_words_of words.now) (limits_of windows.now) most_steps bytes.now)
        (W.told watch.old) (W.told watch.new)) }
{
    match open_build(alloc, words, windows, bytes)? {
        OpenedBuild::Refused(reply) => Ok(reply),
        OpenedBuild::Made(machine, names, mut board) => {
            drive_board(alloc, &machine, &names, &mut board, most_steps, watch)
        }
    }
}

// The answer for a circuit at its start.
fn drive_board<W: Watch>(
    alloc: Global,
    machine: &Uniform,
    names: &QuadNames,
    board: &mut Board,
    most_steps: u64,
    watch: &mut W,
) -> Result<Reply, NoMemory>
    requires states { machine.now.states ≡ length names.now.states }
    requires symbols { machine.now.symbols ≡ counts_of names.now }
    requires few { HasFewSymbols machine.now }
    requires steps { most_steps ≤ MOST_DRIVE_STEPS }
    ensures { (l : Limits) (f : Build) (c : Configuration ℕ) → IsBuiltFor machine.now l f → IsBuiltBoard f c board.old
        → IsAnswered (TellsDrive most_steps (table_of machine.now names.now) c f) result
        (W.told watch.old) (W.told watch.new) }
{
    let quadruple_steps = run_for(board, most_steps, watch);
    tell_outcome(alloc, machine, names, board, quadruple_steps)
}

// The report on a circuit in its configuration, after this many steps of the machine of quadruples.
fn tell_outcome(
    alloc: Global,
    machine: &Uniform,
    names: &QuadNames,
    board: &Board,
    quadruple_steps: u64,
) -> Result<Reply, NoMemory>
    requires states { machine.now.states ≡ length names.now.states }
    requires symbols { machine.now.symbols ≡ counts_of names.now }
    requires few { HasFewSymbols machine.now }
    ensures { IfOk result (TellsOutcome (table_of machine.now names.now) board.now quadruple_steps) }
{
    let shown = board.cells_of(alloc)?;
    let outcome = outcome_of(alloc, machine, board, &shown)?;
    let names = TableNames {
        machine: machine.machine(),
        names,
    };
    let text = text_of_drive(alloc, &names, board, &shown, outcome, quadruple_steps)?;
    Ok(Reply {
        text,
        status: outcome.status(),
    })
}
