//! The command `machine`.

ghost use Rattle.std.specs.Prelude.{◌≡◌, ◌<◌, ◌≤◌, [], All, IfOk};
ghost use Rattle.bn_reply.specs.TableReply.{JudgedReplies, WordReplies};
ghost use Rattle.bn_reply_machines.specs.MachineReply.{MachineReplies, TellsMachineRun, ending_text};
ghost use Rattle.bn_reply_machines.specs.MachineReply.{halted_lines, ending_status, machine_stuck_line};
ghost use Rattle.bn_reply.specs.Lines.{running_line};
ghost use Rattle.bn_reply_machines.specs.MachineRun.{FitsTable, ending_of};

use crate::machine_run::{Ended, Ending, run_word};
use bn_base::MOST_COUNT;
use bn_lists::NoMemory;
use bn_reply::{
    Judged, OpenedTable, OpenedWord, Reply, Status, judge_table, open_table, open_word,
    push_letters,
};
use bn_table::Table;
use std::alloc::Global;

/// The answer of `machine` to a word, a greatest number of steps and some bytes: the result of the run of the table's
/// machine from the word.
pub fn reply_machine(
    alloc: Global,
    word: &[u8],
    steps: u32,
    bytes: &[u8],
) -> Result<Reply, NoMemory>
    requires { steps ≤ MOST_COUNT }
    ensures { IfOk result (λ r. MachineReplies word.now steps bytes.now r.status r.text.items []) }
{
    match open_table(alloc, bytes)? {
        OpenedTable::Refused(reply) => Ok(reply),
        OpenedTable::Read(table) => run_table(alloc, &table, word, steps),
    }
}

// The answer of `machine` to a table.
fn run_table(alloc: Global, table: &Table, word: &[u8], steps: u32) -> Result<Reply, NoMemory>
    requires { steps ≤ MOST_COUNT }
    ensures { IfOk result (λ r. JudgedReplies
        (WordReplies (TellsMachineRun table.now steps) table.now word.now) table.now r.status r.text.items []) }
{
    match judge_table(alloc, table)? {
        Judged::Refused(reply) => Ok(reply),
        Judged::Standard(_) => reply_word(alloc, table, word, steps),
    }
}

// The answer for a table's machine and a word.
fn reply_word(alloc: Global, table: &Table, word: &[u8], steps: u32) -> Result<Reply, NoMemory>
    requires { steps ≤ MOST_COUNT }
    ensures { IfOk result (λ r. WordReplies (TellsMachineRun table.now steps) table.now word.now
        r.status r.text.items []) }
{
    match open_word(alloc, table, word)? {
        OpenedWord::Refused(reply) => Ok(reply),
        OpenedWord::Symbols(symbols) => {
            let ended = run_word(alloc, table.machine(), symbols.as_slice(), steps)?;
            reply_ended(alloc, table, ended)
        }
    }
}

// The answer for a run with this result.
fn reply_ended(alloc: Global, table: &Table, ended: Ended) -> Result<Reply, NoMemory>
    requires { FitsTable table.now ended.ending }
    ensures status { IfOk result (λ r. r.status ≡ ending_status (ending_of ended.ending)) }
    ensures text { IfOk result (λ r. r.text.items ≡ ending_text table.now ended.steps (ending_of ended.ending)) }
{
    let Ended { steps, ending } = ended;
    match ending {
        Ending::Halted(output) => Ok(Reply {
            text: halted_text(alloc, table, steps, output.as_slice())?,
            status: Status::Done,
        }),
        Ending::Stuck { state, symbol } => Ok(Reply {
            text: stuck_text(alloc, table, steps, state, symbol)?,
            status: Status::Stuck,
        }),
        Ending::Running => Ok(Reply {
            text: running_text(alloc, steps)?,
            status: Status::Inside,
        }),
    }
}

// The lines of a run that halts.
fn halted_text(
    alloc: Global,
    table: &Table,
    steps: u32,
    output: &[u32],
) -> Result<Vec<u8>, NoMemory>
    requires { All (λ symbol. symbol < table.now.machine.symbols) output.now }
    ensures { IfOk result (λ text. text.items ≡ halted_lines table.now steps output.now) }
{
    let mut text = format!(in alloc; "halted {steps}\noutput =")?.into_bytes();
    push_letters(&mut text, table, output)?;
    text.extend_from_slice(b"\n")?;
    Ok(text)
}

// The line of a run that is stuck.
fn stuck_text(
    alloc: Global,
    table: &Table,
    steps: u32,
    state: u32,
    symbol: u32,
) -> Result<Vec<u8>, NoMemory>
    requires state { state < table.now.machine.states }
    requires symbol { symbol < table.now.machine.symbols }
    ensures { IfOk result (λ text. text.items ≡ machine_stuck_line table.now steps state symbol) }
{
    let mut text = Vec::from_slice(alloc, b"stuck ")?;
    text.extend_from_slice(table.state_name(state))?;
    text.extend_from_slice(b" ")?;
    push_letters(&mut text, table, &[symbol])?;
    let count = format!(in alloc; " {steps}\n")?;
    text.extend_from_slice(count.as_bytes())?;
    Ok(text)
}

// The line of a run that has made all its steps.
fn running_text(alloc: Global, steps: u32) -> Result<Vec<u8>, NoMemory>
    ensures { IfOk result (λ text. text.items ≡ running_line steps) }
{
    Ok(format!(in alloc; "running {steps}\n")?.into_bytes())
}
