//! The command `equal`.

ghost use Rattle.std.specs.Prelude.{◌≡◌, ◌<◌, ◌≤◌, ℕ, List, [], IfOk};
ghost use Rattle.bn_rsm.specs.Reading.{ReadsMoves};
ghost use Rattle.bn_reply_equal.specs.Replied.{IsReadTable};
ghost use Rattle.bn_reply_equal.specs.declared.read.ReadTable.TheVariants.{Clashing};
ghost use Rattle.bn_reply_equal.specs.EqualReply.{ComparisonReplies, EqualReplies, StatesReplies, TablesReplies};

use crate::read::{ReadTable, read_table};
use crate::second::second_text;
use crate::text::text_of;
use bn_base::{MOST_COUNT, cut_input};
use bn_element::Element;
use bn_equal::{Comparison, compare};
use bn_lists::NoMemory;
use bn_reply::{Reply, Status};
use bn_rsm::Rsm;
use std::alloc::Global;

/// The answer of `equal` to a state of the first machine and one of the second, both counted from 1, and some bytes,
/// which are a table, a line `%` and a second table: a refusal if there is no such line, one is not the table of a
/// machine, or a machine lacks the state; otherwise whether the states give the same outputs for every sequence of
/// input lines, or the least sequence for which they differ.
pub fn reply_equal(alloc: Global, state: u32, other: u32, bytes: &[u8]) -> Result<Reply, NoMemory>
    requires state { (1 ≤ state) × (state ≤ MOST_COUNT) }
    requires other { (1 ≤ other) × (other ≤ MOST_COUNT) }
    ensures { IfOk result (λ r. EqualReplies state other bytes.now r.status r.text.items []) }
{
    match cut_input(bytes) {
        Some((first, second)) => reply_tables(alloc, state, other, first, second),
        None => Ok(Reply::of_fault(Vec::from_slice(alloc, b"text: no second\n")?)),
    }
}

// The answer to two texts.
fn reply_tables(
    alloc: Global,
    state: u32,
    other: u32,
    first: &[u8],
    second: &[u8],
) -> Result<Reply, NoMemory>
    requires state { 1 ≤ state }
    requires other { 1 ≤ other }
    ensures { IfOk result (λ r. TablesReplies state other first.now second.now r.status r.text.items []) }
{
    match read_table(alloc, first)? {
        ReadTable::Faulty(text) => Ok(Reply::of_fault(text)),
        ReadTable::Clashing(text) => reply_clash(alloc, text, second),
        ReadTable::Machine(machine) => reply_machine(alloc, &machine, state, other, second),
    }
}

// The answer if two moves of the first table overlap in domain or in range.
fn reply_clash(alloc: Global, text: Vec<u8>, second: &[u8]) -> Result<Reply, NoMemory>
    ensures { IfOk result (λ r. (state other : ℕ) (first : List ℕ) → IsReadTable first (Clashing text)
        → TablesReplies state other first second.now r.status r.text.items []) }
{
    match read_table(alloc, second)? {
        ReadTable::Faulty(refusal) => {
            let told = second_text(alloc, refusal.as_slice())?;
            Ok(Reply::of_fault(told))
        }
        ReadTable::Clashing(_) => Ok(of_machine(text)),
        ReadTable::Machine(_) => Ok(of_machine(text)),
    }
}

// The answer if the first table is one of a machine.
fn reply_machine(
    alloc: Global,
    machine: &Rsm,
    state: u32,
    other: u32,
    second: &[u8],
) -> Result<Reply, NoMemory>
    requires state { 1 ≤ state }
    requires other { 1 ≤ other }
    ensures { IfOk result (λ r. (first : List ℕ) → ReadsMoves first machine.now
        → TablesReplies state other first second.now r.status r.text.items []) }
{
    match read_table(alloc, second)? {
        ReadTable::Faulty(refusal) => {
            let told = second_text(alloc, refusal.as_slice())?;
            Ok(Reply::of_fault(told))
        }
        ReadTable::Clashing(refusal) => {
            let told = second_text(alloc, refusal.as_slice())?;
            Ok(of_machine(told))
        }
        ReadTable::Machine(second) => reply_states(alloc, machine, state, &second, other),
    }
}

// The reply with this line, which says that a table is not that of a machine.
fn of_machine(text: Vec<u8>) -> Reply
    ensures { result ≡ record { text = text; status = Status.Machine } }
{
    Reply {
        text,
        status: Status::Machine,
    }
}

// The answer to two machines.
fn reply_states(
    alloc: Global,
    first: &Rsm,
    state: u32,
    second: &Rsm,
    other: u32,
) -> Result<Reply, NoMemory>
    requires state { 1 ≤ state }
    requires other { 1 ≤ other }
    ensures { IfOk result (λ r. StatesReplies first.now state second.now other r.status r.text.items []) }
{
    if state > first.states() {
        return Ok(Reply {
            text: Vec::from_slice(alloc, b"word: state\n")?,
            status: Status::Word,
        });
    }
    if other > second.states() {
        return Ok(Reply {
            text: Vec::from_slice(alloc, b"word: second state\n")?,
            status: Status::Word,
        });
    }
    let text = reply_text(alloc, first, state - 1, second, other - 1)?;
    Ok(Reply {
        text,
        status: Status::Done,
    })
}

// The text of the comparison of two states, counted from 0.
fn reply_text(
    alloc: Global,
    first: &Rsm,
    state: u32,
    second: &Rsm,
    other: u32,
) -> Result<Vec<u8>, NoMemory>
    requires state { state < first.now.states }
    requires other { other < second.now.states }
    ensures { IfOk result (λ text. ComparisonReplies first.now state second.now other text.items) }
{
    match compare(alloc, first, state, second, other)? {
        Comparison::Equal => Ok(Vec::from_slice(alloc, b"equal\n")?),
        Comparison::Differ(difference) => text_of(alloc, &difference),
    }
}
