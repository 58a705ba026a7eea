//! The commands `erase` and `erase =W n`.

ghost use Rattle.std.specs.Prelude.{◌≡◌, ◌<◌, ◌≤◌, [], All, IfOk, length};
ghost use Rattle.bn_erase.specs.Joint.{IsJoint};
ghost use Rattle.bn_reply.specs.TableReply.{WordReplies};
ghost use Rattle.bn_reply.specs.Words.{IsLetterSymbol};
ghost use Rattle.bn_bennett_laws.specs.Stages.{IsStandardMachine};
ghost use Rattle.bn_reply_erase.specs.EraseReply.{CountedReplies, EraseReplies, EraseRunReplies, LongReplies};
ghost use Rattle.bn_reply_erase.specs.EraseReply.{erase_text, lettered, many_line};
ghost use Rattle.bn_reply_erase.specs.EraseReply.{TellsErasing};
ghost use Rattle.bn_reply.specs.Answering.{IsDone};
ghost use Rattle.bn_reply_erase.specs.EraseRun.{AreOf, FitsLetters, outcome_of};
ghost use Rattle.bn_reply_erase.specs.EraseReply.{erased_lines, outcome_text, erasing_status, erasing_stuck_line};
ghost use Rattle.bn_erase.specs.Made.{IsErasing, name_of};

use crate::letters::{open_word, push_letters};
use crate::pair::{JudgedPair, OpenedPair, judge_pair, open_pair};
use crate::run::{Ended, Ending, run_word};
use bn_base::MOST_COUNT;
use bn_erase::{EraseRefusal, Erasing, Joined, erase, erasing_names};
use bn_lists::NoMemory;
use bn_machine::Standard;
use bn_qtable::write_quads;
use bn_reply::{OpenedWord, Reply, Status, too_long};
use std::alloc::Global;

/// The answer of `erase` to some bytes, which are a table, a line `%` and a second table: a refusal if there is no
/// such line, one is not a table, a machine is not in standard form, or the erasing machine has more than 20,000
/// quadruples; otherwise its table.
pub fn reply_erase(alloc: Global, bytes: &[u8]) -> Result<Reply, NoMemory>
    ensures { IfOk result (λ r. EraseReplies bytes.now r.status r.text.items []) }
{
    match open_pair(alloc, bytes)? {
        OpenedPair::Refused(reply) => Ok(reply),
        OpenedPair::Joined(joined) => match judge_pair(alloc, &joined)? {
            JudgedPair::Refused(reply) => Ok(reply),
            JudgedPair::Standard(first, second) => reply_machine(alloc, &joined, &first, &second),
        },
    }
}

/// The answer of `erase` to a word, a greatest number of steps and some bytes, which are a table, a line `%` and a
/// second table: the refusals without a word, and after the tests of standard form a refusal if the word has a letter
/// that is not one of the two tables' or is the blank's, or more than 1,048,576 letters; otherwise the result of the
/// erasing machine's run from the word.
pub fn reply_erase_run(
    alloc: Global,
    word: &[u8],
    steps: u32,
    bytes: &[u8],
) -> Result<Reply, NoMemory>
    requires { steps ≤ MOST_COUNT }
    ensures { IfOk result (λ r. EraseRunReplies word.now steps bytes.now r.status r.text.items []) }
{
    match open_pair(alloc, bytes)? {
        OpenedPair::Refused(reply) => Ok(reply),
        OpenedPair::Joined(joined) => match judge_pair(alloc, &joined)? {
            JudgedPair::Refused(reply) => Ok(reply),
            JudgedPair::Standard(first, second) => {
                reply_word(alloc, &joined, &first, &second, word, steps)
            }
        },
    }
}

// The answer to two machines in standard form.
fn reply_machine(
    alloc: Global,
    joined: &Joined,
    first: &Standard<'_>,
    second: &Standard<'_>,
) -> Result<Reply, NoMemory>
    requires { AreOf joined.now first.now second.now }
    ensures { IfOk result (λ r.
        CountedReplies (IsDone (erase_text joined.now)) joined.now r.status r.text.items []) }
{
    match erase(alloc, first, second) {
        Ok(erasing) => Ok(Reply {
            text: machine_text(alloc, joined, &erasing)?,
            status: Status::Done,
        }),
        Err(EraseRefusal::Many { count }) => many_reply(alloc, count),
        Err(EraseRefusal::NoMemory) => Err(NoMemory),
    }
}

// The table of an erasing machine.
fn machine_text(alloc: Global, joined: &Joined, erasing: &Erasing) -> Result<Vec<u8>, NoMemory>
    requires { IsErasing joined.now.first joined.now.second erasing.now }
    ensures { IfOk result (λ text. text.items ≡ erase_text joined.now) }
{
    let names = erasing_names(alloc, joined, erasing)?;
    write_quads(alloc, erasing.machine().machine(), &names)
}

// The answer if the erasing machine has too many quadruples.
fn many_reply(alloc: Global, count: u32) -> Result<Reply, NoMemory>
    ensures status { IfOk result (λ r. r.status ≡ Status.Size) }
    ensures text { IfOk result (λ r. r.text.items ≡ many_line count) }
{
    Ok(Reply {
        text: format!(in alloc; "size: quadruples {count}\n")?.into_bytes(),
        status: Status::Size,
    })
}

// The answer to two machines in standard form and a word.
fn reply_word(
    alloc: Global,
    joined: &Joined,
    first: &Standard<'_>,
    second: &Standard<'_>,
    word: &[u8],
    steps: u32,
) -> Result<Reply, NoMemory>
    requires few { steps ≤ MOST_COUNT }
    requires standard { AreOf joined.now first.now second.now }
    ensures { IfOk result (λ r.
        WordReplies (LongReplies joined.now steps) (lettered joined.now) word.now r.status r.text.items []) }
{
    match open_word(alloc, joined, word)? {
        OpenedWord::Refused(reply) => Ok(reply),
        OpenedWord::Symbols(symbols) => {
            reply_symbols(alloc, joined, first, second, symbols.as_slice(), steps)
        }
    }
}

// The answer to two machines in standard form and the symbols of a word.
fn reply_symbols(
    alloc: Global,
    joined: &Joined,
    first: &Standard<'_>,
    second: &Standard<'_>,
    symbols: &[u32],
    steps: u32,
) -> Result<Reply, NoMemory>
    requires few { steps ≤ MOST_COUNT }
    requires standard { AreOf joined.now first.now second.now }
    requires letters { All (IsLetterSymbol (lettered joined.now)) symbols.now }
    ensures { IfOk result (λ r. LongReplies joined.now steps symbols.now r.status r.text.items []) }
{
    let count = symbols.len();
    if count as u64 > MOST_COUNT {
        return too_long(alloc, count);
    }
    match erase(alloc, first, second) {
        Ok(erasing) => {
            let ended = run_word(alloc, &erasing, symbols, steps)?;
            reply_ended(alloc, joined, &erasing, ended)
        }
        Err(EraseRefusal::Many { count }) => many_reply(alloc, count),
        Err(EraseRefusal::NoMemory) => Err(NoMemory),
    }
}

// The answer for a run with this result.
fn reply_ended(
    alloc: Global,
    joined: &Joined,
    erasing: &Erasing,
    ended: Ended,
) -> Result<Reply, NoMemory>
    requires erasing { IsErasing joined.now.first joined.now.second erasing.now }
    requires fits { FitsLetters joined.now erasing.now ended.ending }
    ensures status { IfOk result (λ r. r.status ≡ erasing_status (outcome_of erasing.now ended.ending)) }
    ensures text { IfOk result (λ r.
        r.text.items ≡ outcome_text joined.now ended.steps (outcome_of erasing.now ended.ending)) }
{
    let Ended { steps, ending } = ended;
    match ending {
        Ending::Halted { work, output } => Ok(Reply {
            text: halted_text(alloc, joined, steps, work.as_slice(), output.as_slice())?,
            status: Status::Done,
        }),
        Ending::Stuck { state } => Ok(Reply {
            text: stuck_text(alloc, joined, erasing, steps, state)?,
            status: Status::Stuck,
        }),
        Ending::Running => Ok(Reply {
            text: format!(in alloc; "running {steps}\n")?.into_bytes(),
            status: Status::Inside,
        }),
    }
}

// The lines of a run that halts.
fn halted_text(
    alloc: Global,
    joined: &Joined,
    steps: u32,
    work: &[u32],
    output: &[u32],
) -> Result<Vec<u8>, NoMemory>
    requires work { All (λ symbol. symbol < length joined.now.letters) work.now }
    requires output { All (λ symbol. symbol < length joined.now.letters) output.now }
    ensures { IfOk result (λ text. text.items ≡ erased_lines joined.now steps work.now output.now) }
{
    let mut text = format!(in alloc; "halted {steps}\nwork =")?.into_bytes();
    push_letters(&mut text, joined, work)?;
    text.extend_from_slice(b"\noutput =")?;
    push_letters(&mut text, joined, output)?;
    text.extend_from_slice(b"\n")?;
    Ok(text)
}

// The line of a run that is stuck.
fn stuck_text(
    alloc: Global,
    joined: &Joined,
    erasing: &Erasing,
    steps: u32,
    state: u32,
) -> Result<Vec<u8>, NoMemory>
    requires erasing { IsErasing joined.now.first joined.now.second erasing.now }
    requires state { state < erasing.now.machine.states }
    ensures { IfOk result (λ text. text.items ≡ erasing_stuck_line steps (name_of erasing.now state)) }
{
    let names = erasing_names(alloc, joined, erasing)?;
    let mut text = Vec::from_slice(alloc, b"stuck ")?;
    text.extend_from_slice(names.state(state))?;
    let count = format!(in alloc; " {steps}\n")?;
    text.extend_from_slice(count.as_bytes())?;
    Ok(text)
}
