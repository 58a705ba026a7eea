//! The command `run`.

ghost use Rattle.std.specs.Prelude.{◌≡◌, ◌+◌, ◌-◌, IfOk, OnErr, is_some};
ghost use Rattle.bn_circuits.specs.Counting.{one_if};
ghost use Rattle.bn_network.specs.Limits.{AreSmall};
ghost use Rattle.bn_network_assembly.specs.Assembled.{limits_of};
ghost use Rattle.bn_boards.specs.Layouts.{IsExit, symbol_count_at};
ghost use Rattle.bn_boards.specs.Flats.{Flat};
ghost use Rattle.bn_boards.specs.declared.exit.Exit.{Exit};
ghost use Rattle.bn_reply.specs.Replying.{IsReplied, IsUnfinished};
ghost use Rattle.bn_reply_relations.specs.RunReply.{RunReplies, exit_status};
ghost use Rattle.bn_bennett.specs.Translation.{Translation};
ghost use Rattle.bn_reply_boards.specs.Running.{HasRun, IsAnswered, IsAtStart, TellsFound, end_by, steps_for};
ghost use Rattle.bn_reply_boards.specs.Shown.{HasNames};

use crate::opening::{OpenedInput, open_input};
use crate::run_text::text_of_run;
use bn_bennett::Translated;
use bn_board::{Board, Exit};
use bn_circuits::Watch;
use bn_lists::NoMemory;
use bn_network_assembly::Windows;
use bn_reply::{Reply, Status};
use bn_table::Table;
use std::alloc::Global;

/// The answer of `run` to a word, a window, a greatest number of steps if there is one, and some bytes: a refusal if
/// they are not a table with a machine in standard form, the word is not one of its letters or does not fit, or the
/// circuit has too many elements; otherwise the run of the signal on the circuit, for at most this many steps, or for
/// as many as its bound allows. The place after each step is reported to the watch.
pub fn reply_run<W: Watch>(
    alloc: Global,
    word: &[u8],
    windows: &Windows,
    given: Option<u64>,
    bytes: &[u8],
    watch: &mut W,
) -> Result<Reply, NoMemory>
    requires { AreSmall (limits_of windows.now) }
    ensures replied { IfOk result (λ r. IsReplied (RunReplies given word.now (limits_of windows.now) bytes.now) r
        (W.told watch.old) (W.told watch.new)) }
    ensures interrupted { OnErr result (IsUnfinished (RunReplies given word.now (limits_of windows.now) bytes.now)
        (W.told watch.old) (W.told watch.new)) }
{
    match open_input(alloc, word, windows, bytes)? {
        OpenedInput::Refused(reply) => Ok(reply),
        OpenedInput::Made(table, translated, mut board) => {
            run_board(alloc, &table, &translated, &mut board, given, watch)
        }
    }
}

// The answer for a circuit at its start.
fn run_board<W: Watch>(
    alloc: Global,
    table: &Table,
    translated: &Translated,
    board: &mut Board,
    given: Option<u64>,
    watch: &mut W,
) -> Result<Reply, NoMemory>
    requires names { (e : Exit) → IsExit board.old.layout (end_by board.old given).place e
        → HasNames table.now translated.now e }
    requires one { symbol_count_at board.old.layout 1 ≡ table.now.machine.symbols }
    requires three { symbol_count_at board.old.layout 3 ≡ table.now.machine.symbols }
    ensures { (f : Flat) → IsAtStart f translated.now board.old
        → IsAnswered (TellsFound given table.now f) result (W.told watch.old) (W.told watch.new) }
{
    let ran = run_to_exit(board, given, watch);
    let text = text_of_run(
        alloc,
        table,
        translated,
        board,
        ran.exit,
        ran.quadruple_steps,
    )?;
    Ok(Reply {
        text,
        status: status_of(ran.exit),
    })
}

/// Where the run of a circuit ended.
#[derive(Clone, Copy, PartialEq, Eq, Debug)]
pub struct Ran {
    /// By which exit the signal left, or that it has not left.
    pub exit: Exit,
    /// The steps of the machine of quadruples: the moments from the start on, less one.
    pub quadruple_steps: u64,
}

/// Runs a circuit that is at its start for at most this many steps, or else for as many as its bound allows. The place
/// after each step is reported to the watch. It takes no memory.
pub fn run_to_exit<W: Watch>(board: &mut Board, given: Option<u64>, watch: &mut W) -> Ran
    ensures ran { (f : Flat) (m : Translation) → IsAtStart f m board.old
        → HasRun given f m board.new result.exit result.quadruple_steps (W.told watch.old) (W.told watch.new) }
    ensures exit { IsExit board.old.layout (end_by board.old given).place result.exit }
    ensures layout { board.new.layout ≡ board.old.layout }
{
    let budget = budget_of(board, given);
    let first = board.moment();
    let moments = board.run_counting(budget, watch);
    let quadruple_steps = less_one(first, moments);
    let exit = board.exit_of();
    Ran {
        exit,
        quadruple_steps,
    }
}

// The greatest number of steps: the given one, or else the circuit's bound.
fn budget_of(board: &Board, given: Option<u64>) -> u64
    ensures { result ≡ steps_for board.now.layout given }
{
    match given {
        Some(steps) => steps,
        None => board.bound(),
    }
}

// The number of moments less one, where this many follow the first configuration, which may be one itself.
fn less_one(first: Option<u32>, moments: u64) -> u64
    ensures { result ≡ one_if (is_some first) + moments - 1 }
{
    match first {
        Some(_) => moments,
        None => moments.saturating_sub(1),
    }
}

/// The status of a run with this exit.
pub fn status_of(exit: Exit) -> Status
    ensures { result ≡ exit_status exit }
{
    match exit {
        Exit::Inside => Status::Inside,
        Exit::End | Exit::Unnamed => Status::Done,
        Exit::Stuck { .. } => Status::Stuck,
        Exit::Window { .. } => Status::Window,
    }
}
