//! The command `realise`.

ghost use Rattle.std.specs.Prelude.{◌≡◌, ◌≤◌, ◌<◌, List, IfOk, Option};
ghost use Rattle.bn_io.specs.Faults.{CountsUnless};
ghost use Rattle.bn_circuits.specs.declared.place.Place.{Place};
ghost use Rattle.bn_reply.specs.Streams.{AnswerEnds};
ghost use Rattle.bn_rsm.specs.Machines.{machine_table};
ghost use Rattle.bn_realise.specs.Banks.{exit_after};
ghost use Rattle.bn_realise.specs.BankNets.{IsBankOf, bank_elements};
ghost use Rattle.bn_reply_circuits.specs.Refused.{IsRsmRefused};
ghost use Rattle.bn_reply_circuits.specs.RealiseReply.{BankReplies, RealiseReplies};
ghost use Rattle.bn_reply_circuits.specs.Unwritten.{IsBankConfig, WillReply};

use crate::unwritten::Unwritten;
use bn_circuits::{Line, MOST_ELEMENTS};
use bn_element::{EAST, Element, WEST};
use bn_io::Sink;
use bn_lists::NoMemory;
use bn_netlist::{NetConfig, Version};
use bn_realise::{Bank, BankRefusal, bank};
use bn_reply::{Reply, Status, empty_text, field_text, record_text};
use bn_rsm::{Rsm, RsmTableRefusal, read_rsm};
use std::alloc::Global;

/// The command `realise` for a state, an input port, both counted from 1, and some bytes: tests whether the bytes are
/// the table of a machine that has both, and then writes the text of its bank, in version 2 and in pieces.
pub fn answer_realise<K: Sink>(
    alloc: Global,
    state: u32,
    line: u32,
    bytes: &[u8],
    sink: &mut K,
) -> Status
    requires state { 1 ≤ state }
    requires line { 1 ≤ line }
    ensures ends { (told : Option (List Place)) → AnswerEnds (RealiseReplies state line bytes.now) result
        (K.taken sink.old) (K.taken sink.new) (K.faults sink.old) (K.faults sink.new) told told }
    ensures later { CountsUnless (result ≡ Status.WriteFault) (K.faults sink.old) (K.faults sink.new) }
{
    match bank_of(alloc, state, line, bytes) {
        Ok(answer) => answer.give(alloc, sink),
        Err(NoMemory) => Status::NoMemory,
    }
}

// The answer of `realise`, before it is written.
fn bank_of(alloc: Global, state: u32, line: u32, bytes: &[u8]) -> Result<Unwritten, NoMemory>
    requires state { 1 ≤ state }
    requires line { 1 ≤ line }
    ensures { IfOk result (WillReply (RealiseReplies state line bytes.now)) }
{
    match read_rsm(alloc, bytes) {
        Ok(rsm) => bank_in(alloc, &rsm, state, line),
        Err(refusal) => {
            let reply = refuse(alloc, refusal)?;
            Ok(Unwritten::Line(reply))
        }
    }
}

// The answer to bytes that are no table of a machine.
fn refuse(alloc: Global, refusal: RsmTableRefusal) -> Result<Reply, NoMemory>
    ensures { IfOk result (λ r. IsRsmRefused refusal r.status r.text.items) }
{
    match refusal {
        RsmTableRefusal::FieldCount { entry } => {
            Ok(Reply::of_fault(record_text(alloc, entry, "fields")?))
        }
        RsmTableRefusal::Number { entry, field } => {
            Ok(Reply::of_fault(field_text(alloc, entry, field, "number")?))
        }
        RsmTableRefusal::TooMany { entry } => {
            Ok(Reply::of_fault(record_text(alloc, entry, "too many")?))
        }
        RsmTableRefusal::Empty => Ok(Reply::of_fault(empty_text(alloc)?)),
        RsmTableRefusal::SameDomain { i, j } => Ok(Reply {
            text: format!(in alloc; "machine: domain {i} {j}\n")?.into_bytes(),
            status: Status::Machine,
        }),
        RsmTableRefusal::SameRange { i, j } => Ok(Reply {
            text: format!(in alloc; "machine: range {i} {j}\n")?.into_bytes(),
            status: Status::Machine,
        }),
        RsmTableRefusal::NoMemory => Err(NoMemory),
    }
}

// The answer for a machine, before it is written.
fn bank_in(alloc: Global, rsm: &Rsm, state: u32, line: u32) -> Result<Unwritten, NoMemory>
    requires state { 1 ≤ state }
    requires line { 1 ≤ line }
    ensures { IfOk result (WillReply (BankReplies rsm.now state line)) }
{
    if state > rsm.states() {
        return Ok(Unwritten::Line(Reply {
            text: Vec::from_slice(alloc, b"word: state\n")?,
            status: Status::Word,
        }));
    }
    if line > rsm.lines_in() {
        return Ok(Unwritten::Line(Reply {
            text: Vec::from_slice(alloc, b"word: line\n")?,
            status: Status::Word,
        }));
    }
    match bank(alloc, rsm) {
        Ok(bank) => {
            let config = bank_config(alloc, rsm, bank, state - 1, line - 1)?;
            Ok(Unwritten::Config(config))
        }
        Err(BankRefusal::Elements { count }) => Ok(Unwritten::Line(Reply {
            text: format!(in alloc; "size: elements {count}\n")?.into_bytes(),
            status: Status::Size,
        })),
        Err(BankRefusal::NoMemory) => Err(NoMemory),
    }
}

// The machine's bank in a state, with the signal at an input port, both counted from 0, as a configuration whose text
// is of version 2.
fn bank_config(
    alloc: Global,
    rsm: &Rsm,
    bank: Bank,
    state: u32,
    line: u32,
) -> Result<NetConfig, NoMemory>
    requires is { IsBankOf bank (machine_table rsm.now) }
    requires few { bank_elements rsm.now ≤ MOST_ELEMENTS }
    requires state { state < rsm.now.states }
    requires line { line < rsm.now.lines }
    ensures { IfOk result (IsBankConfig rsm.now state line) }
{
    let end = exit_line(rsm, state, line);
    let config = bank.start(alloc, state, line)?;
    Ok(NetConfig {
        version: Version::Two,
        net: bank.into_net(),
        config,
        start: Line {
            element: line,
            line: WEST,
        },
        end,
    })
}

// The port by which the signal leaves the bank: the output port of the move, or the loose port if the pair has no
// move.
fn exit_line(rsm: &Rsm, state: u32, line: u32) -> Line
    requires few { bank_elements rsm.now ≤ MOST_ELEMENTS }
    requires state { state < rsm.now.states }
    requires line { line < rsm.now.lines }
    ensures { result ≡ exit_after 0 (machine_table rsm.now) state line ((machine_table rsm.now).go state line) }
{
    let rows = rsm.lines_in() + 1;
    match rsm.go(state, line) {
        Some((_, out)) => Line {
            element: (rsm.states() - 1) * rows + out,
            line: EAST,
        },
        None => Line {
            element: state * rows + line,
            line: WEST,
        },
    }
}
