//! One round of the search for a window.

ghost use Rattle.std.specs.Prelude.{◌≡◌, ◌++◌, ◌≤◌, length, IfOk, None};
ghost use Rattle.bn_network.specs.Limits.{AreSmall};
ghost use Rattle.bn_network_assembly.specs.Assembled.{limits_of};
ghost use Rattle.bn_boards.specs.Flats.{Flat};
ghost use Rattle.bn_boards.specs.Layouts.{IsExit, symbol_count_at};
ghost use Rattle.bn_boards.specs.declared.exit.Exit.{Exit};
ghost use Rattle.bn_reply_relations.specs.RunText.{run_text};
ghost use Rattle.bn_reply_boards.specs.Running.{IsAtStart, end_by};
ghost use Rattle.bn_reply_boards.specs.Shown.{HasNames, IsShown};
ghost use Rattle.bn_headline.specs.AutoReply.{EndReplies, found_line};
ghost use Rattle.bn_headline.specs.Asked.{IsAsked, IsReady};
ghost use Rattle.bn_headline.specs.Rounds.{IsRun, LeavesBy, RanBy, TellsEnd};

use bn_bennett::Translated;
use bn_board::{Board, Exit};
use bn_circuits::Watch;
use bn_lists::NoMemory;
use bn_machine::Side;
use bn_network_assembly::Windows;
use bn_reply::{Reply, push};
use bn_reply_boards::{OpenedWindow, Ran, open_window, run_to_exit, status_of, text_of_run};
use bn_table::Table;
use std::alloc::Global;

/// The result of a round.
#[derive(Drop)]
pub(crate) enum Round {
    /// The answer: the circuit would be too large, or its signal left by no end of a tape.
    Ended(Reply),
    /// The signal left by this end of a tape.
    Short(u32, Side),
}

// Runs the circuit in this window to its exit, unless it is too large. The place after each step is reported to the
// watch.
pub(crate) fn run_round<W: Watch>(
    alloc: Global,
    table: &Table,
    translated: &Translated,
    symbols: &[u32],
    windows: &Windows,
    watch: &mut W,
) -> Result<Round, NoMemory>
    requires given { IsAsked table.now symbols.now }
    requires ready { IsReady table.now symbols.now translated.now }
    requires windows { AreSmall (limits_of windows.now) }
    requires fits { length symbols.now ≤ (limits_of windows.now).right }
    ensures { IsRun (EndReplies table.now symbols.now (limits_of windows.now))
        (LeavesBy table.now.machine symbols.now (limits_of windows.now))
        result (W.told watch.old) (W.told watch.new) }
{
    match open_window(alloc, translated, symbols, windows)? {
        OpenedWindow::Refused(reply) => Ok(Round::Ended(reply)),
        OpenedWindow::Made(mut board) => {
            run_window(alloc, table, translated, windows, &mut board, watch)
        }
    }
}

// The result for a circuit at its start in this window.
fn run_window<W: Watch>(
    alloc: Global,
    table: &Table,
    translated: &Translated,
    windows: &Windows,
    board: &mut Board,
    watch: &mut W,
) -> Result<Round, NoMemory>
    requires names { (e : Exit) → IsExit board.old.layout (end_by board.old None).place e
        → HasNames table.now translated.now e }
    requires one { symbol_count_at board.old.layout 1 ≡ table.now.machine.symbols }
    requires three { symbol_count_at board.old.layout 3 ≡ table.now.machine.symbols }
    ensures { (f : Flat) → IsAtStart f translated.now board.old
        → IsRun (TellsEnd table.now f (limits_of windows.now)) (RanBy f)
        result (W.told watch.old) (W.told watch.new) }
{
    let ran = run_to_exit(board, None, watch);
    match ran.exit {
        Exit::Window { tape, side } => Ok(Round::Short(tape, side)),
        _ => {
            let text = found_text(alloc, table, translated, windows, board, ran)?;
            Ok(Round::Ended(Reply {
                text,
                status: status_of(ran.exit),
            }))
        }
    }
}

// The text if the window is found: its line, and the text of the run.
fn found_text(
    alloc: Global,
    table: &Table,
    translated: &Translated,
    windows: &Windows,
    board: &Board,
    ran: Ran,
) -> Result<Vec<u8>, NoMemory>
    requires names { HasNames table.now translated.now ran.exit }
    requires one { symbol_count_at board.now.layout 1 ≡ table.now.machine.symbols }
    requires three { symbol_count_at board.now.layout 3 ≡ table.now.machine.symbols }
    ensures { IfOk result (λ text. (f : Flat) → IsShown f translated.now board.now
        → text.items ≡ found_line (limits_of windows.now)
        ++ run_text table.now f board.now.config ran.quadruple_steps ran.exit) }
{
    let mut text = found_line(alloc, windows)?;
    let rest = text_of_run(
        alloc,
        table,
        translated,
        board,
        ran.exit,
        ran.quadruple_steps,
    )?;
    push(&mut text, rest.as_slice())?;
    Ok(text)
}

// The line of the automatic window.
fn found_line(alloc: Global, windows: &Windows) -> Result<Vec<u8>, NoMemory>
    ensures { IfOk result (λ text. text.items ≡ found_line (limits_of windows.now)) }
{
    let left = windows.left1;
    let right = windows.right1;
    let steps = windows.right2;
    let output = windows.right3;
    Ok(format!(in alloc; "window {left} {right} {steps} {output}\n")?.into_bytes())
}
