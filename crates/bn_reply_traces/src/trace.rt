//! The command `trace`.

ghost use Rattle.std.specs.Prelude.{◌≡◌, ℕ, List, Option, [], ◌+◌, ◌≤◌, ◌<◌, ◌++◌, pos, ◌+ℤ◌, IfOk, OnOk, OnErr};
ghost use Rattle.std.specs.Prelude.{IsErrOf};
ghost use Rattle.bn_circuits.specs.declared.place.Place.{Place};
ghost use Rattle.bn_io.specs.Faults.{Rose, CountsUnless};
ghost use Rattle.bn_io.specs.Told.{Grows, GrowsByFront};
ghost use Rattle.bn_machine.specs.Run.{Ending};
ghost use Rattle.bn_machine.specs.Tape.{Tape as Endless, scanned};
ghost use Rattle.bn_table.specs.Rows.{IsTable};
ghost use Rattle.bn_reply.specs.Streams.{AnswerEnds};
ghost use Rattle.bn_reply.specs.TableReply.{JudgedReplies, WordReplies};
ghost use Rattle.bn_reply.specs.Words.{IsSpelledBy};
ghost use Rattle.bn_reply_machines.specs.MachineReply.{ending_status};
ghost use Rattle.bn_reply_traces.specs.MomentText.{rule_text};
ghost use Rattle.bn_reply_traces.specs.Stages.{AreTold, AreToldInPart, IsEndedAt, IsOutcome, IsRule, IsShowable};
ghost use Rattle.bn_reply_traces.specs.Stages.{IsStageAfter, IsWordOf, OutcomeEnds, StandsFor, stage_line};
ghost use Rattle.bn_reply_traces.specs.TraceReply.{TellsTrace, TraceReplies, outcome_line};

use crate::outcome::push_outcome;
use crate::stage::Stage;
use crate::tape_text::push_tape;
use bn_base::{MOST_COUNT, push_u64};
use bn_io::{Sink, WriteFault, give_pieces};
use bn_lists::NoMemory;
use bn_reply::{
    Judged, OpenedTable, OpenedWord, Status, finish, give_reply, judge_table, open_table,
    open_word, push,
};
use bn_table::Table;
use std::alloc::Global;

/// Why a text was not given completely.
#[derive(Clone, Copy, PartialEq, Eq, Debug)]
pub(crate) enum Unfinished {
    /// The sink failed.
    WriteFault,
    /// Memory ran out.
    NoMemory,
}

/// The last configuration of a run so far.
#[derive(Clone, Copy)]
pub(crate) struct Ended {
    /// The steps made.
    pub(crate) steps: u32,
    /// The number, counted from 1, of the quintuple that is applied next, if there is one.
    pub(crate) rule: Option<u32>,
}

/// The command `trace` for a word, a greatest number of steps and some bytes. It refuses, in this order: bytes that
/// are no table whose machine is in standard form; a word with other letters. Otherwise it writes to the sink, in
/// pieces, a line for each configuration of the machine's own run from the start to the last one, and the line that
/// says how the run ends.
pub fn answer_trace<K: Sink>(
    alloc: Global,
    word: &[u8],
    most_steps: u32,
    bytes: &[u8],
    sink: &mut K,
) -> Status
    requires { most_steps ≤ MOST_COUNT }
    ensures ends { (told : Option (List Place)) → AnswerEnds (TraceReplies word.now most_steps bytes.now) result
        (K.taken sink.old) (K.taken sink.new) (K.faults sink.old) (K.faults sink.new) told told }
    ensures later { CountsUnless (result ≡ Status.WriteFault) (K.faults sink.old) (K.faults sink.new) }
{
    match open_table(alloc, bytes) {
        Ok(OpenedTable::Read(table)) => answer_table(alloc, word, most_steps, &table, sink),
        Ok(OpenedTable::Refused(reply)) => give_reply(sink, Ok(reply)),
        Err(NoMemory) => Status::NoMemory,
    }
}

// The answer of `trace` for a table.
fn answer_table<K: Sink>(
    alloc: Global,
    word: &[u8],
    most_steps: u32,
    table: &Table,
    sink: &mut K,
) -> Status
    requires { most_steps ≤ MOST_COUNT }
    ensures ends { (told : Option (List Place)) → AnswerEnds (JudgedReplies
        (WordReplies (TellsTrace table.now most_steps) table.now word.now) table.now) result
        (K.taken sink.old) (K.taken sink.new) (K.faults sink.old) (K.faults sink.new) told told }
    ensures later { CountsUnless (result ≡ Status.WriteFault) (K.faults sink.old) (K.faults sink.new) }
{
    match judge_table(alloc, table) {
        Ok(Judged::Standard(_)) => answer_word(alloc, word, most_steps, table, sink),
        Ok(Judged::Refused(reply)) => give_reply(sink, Ok(reply)),
        Err(NoMemory) => Status::NoMemory,
    }
}

// The answer of `trace` for a word of a table's letters.
fn answer_word<K: Sink>(
    alloc: Global,
    word: &[u8],
    most_steps: u32,
    table: &Table,
    sink: &mut K,
) -> Status
    requires { most_steps ≤ MOST_COUNT }
    ensures ends { (told : Option (List Place)) → AnswerEnds
        (WordReplies (TellsTrace table.now most_steps) table.now word.now) result
        (K.taken sink.old) (K.taken sink.new) (K.faults sink.old) (K.faults sink.new) told told }
    ensures later { CountsUnless (result ≡ Status.WriteFault) (K.faults sink.old) (K.faults sink.new) }
{
    match open_word(alloc, table, word) {
        Ok(OpenedWord::Symbols(symbols)) => {
            give_trace(alloc, table, symbols.as_slice(), most_steps, sink)
        }
        Ok(OpenedWord::Refused(reply)) => give_reply(sink, Ok(reply)),
        Err(NoMemory) => Status::NoMemory,
    }
}

// Gives the trace of the run from a word.
fn give_trace<K: Sink>(
    alloc: Global,
    table: &Table,
    word: &[u32],
    most_steps: u32,
    sink: &mut K,
) -> Status
    requires few { most_steps ≤ MOST_COUNT }
    requires spelled { (bytes : List ℕ) × IsSpelledBy table.now bytes word.now }
    ensures ends { (told : Option (List Place)) → AnswerEnds (TellsTrace table.now most_steps word.now) result
        (K.taken sink.old) (K.taken sink.new) (K.faults sink.old) (K.faults sink.new) told told }
    ensures later { CountsUnless (result ≡ Status.WriteFault) (K.faults sink.old) (K.faults sink.new) }
{
    let Ok(mut stage) = Stage::start(alloc, table.machine(), word, most_steps) else {
        return Status::NoMemory;
    };
    let mut text = Vec::new(alloc);
    match give_moments(sink, &mut text, table, word, &mut stage, most_steps) {
        Ok(ended) => give_outcome(sink, &mut text, table, &stage, ended),
        Err(Unfinished::WriteFault) => Status::WriteFault,
        Err(Unfinished::NoMemory) => Status::NoMemory,
    }
}

// Gives, in pieces, the line of each configuration from the start to the last one, at most `most_steps` steps later,
// and keeps in `text` the bytes that follow the last whole piece.
fn give_moments<K: Sink>(
    sink: &mut K,
    text: &mut Vec<u8>,
    table: &Table,
    word: &[u32],
    stage: &mut Stage,
    most_steps: u32,
) -> Result<Ended, Unfinished>
    requires few { most_steps ≤ MOST_COUNT }
    requires table { IsTable table.now }
    requires word { IsWordOf table.now word.now }
    requires start { IsStageAfter table.now word.now most_steps 0 stage.old }
    requires empty { text.old.items ≡ [] }
    ensures told { IfOk result (λ e. AreTold table.now word.now (K.taken sink.old) (K.taken sink.new)
        text.new.items (e.steps + 1)) }
    ensures at { IfOk result (λ e. IsEndedAt table.now word.now most_steps stage.new e.steps e.rule) }
    ensures front { OnErr result (AreToldInPart table.now word.now most_steps (K.taken sink.old) (K.taken sink.new)) }
    ensures later { CountsUnless (IsErrOf result Unfinished.WriteFault) (K.faults sink.old) (K.faults sink.new) }
    ensures write_fault { IsErrOf result Unfinished.WriteFault → Rose (K.faults sink.old) (K.faults sink.new) }
{
    for steps in 0..most_steps {
        let rule = tell_moment(sink, text, table, word, stage, steps)?;
        if rule.is_none() {
            return Ok(Ended { steps, rule });
        }
        stage.go_on(table.machine());
    }
    let rule = tell_moment(sink, text, table, word, stage, most_steps)?;
    Ok(Ended {
        steps: most_steps,
        rule,
    })
}

// Appends the line of a configuration, gives all whole pieces, and returns the quintuple that is applied next, if there
// is one.
fn tell_moment<K: Sink>(
    sink: &mut K,
    text: &mut Vec<u8>,
    table: &Table,
    word: &[u32],
    stage: &Stage,
    steps: u32,
) -> Result<Option<u32>, Unfinished>
    requires table { IsTable table.now }
    requires word { IsWordOf table.now word.now }
    requires stage { IsShowable table.now word.now stage.now }
    ensures told { (u : Endless) (count : ℕ) → StandsFor stage.now.tape word.now u →
        (stage.now.extent.first +ℤ pos count) ≡ (stage.now.extent.last +ℤ pos 1) → IfOk result (λ rule.
        (piece : List ℕ) × (text.old.items ++ stage_line table.now steps stage.now u count rule
        ≡ piece ++ text.new.items) × Grows (K.taken sink.old) (K.taken sink.new) piece) }
    ensures rule { IfOk result (IsRule table.now.machine stage.now.state (scanned stage.now.tape.tape)) }
    ensures front { (u : Endless) (count : ℕ) → StandsFor stage.now.tape word.now u →
        (stage.now.extent.first +ℤ pos count) ≡ (stage.now.extent.last +ℤ pos 1) → OnErr result (
        (rule : Option ℕ) × IsRule table.now.machine stage.now.state (scanned stage.now.tape.tape) rule
        × GrowsByFront (K.taken sink.old) (K.taken sink.new)
        (text.old.items ++ stage_line table.now steps stage.now u count rule)) }
    ensures later { CountsUnless (IsErrOf result Unfinished.WriteFault) (K.faults sink.old) (K.faults sink.new) }
    ensures write_fault { IsErrOf result Unfinished.WriteFault → Rose (K.faults sink.old) (K.faults sink.new) }
{
    let rule = stage.rule(table.machine());
    let Ok(()) = push_moment(text, table, word, stage, steps, rule) else {
        return Err(Unfinished::NoMemory);
    };
    match give_pieces(sink, text) {
        Ok(()) => Ok(rule),
        Err(WriteFault) => Err(Unfinished::WriteFault),
    }
}

// Appends the line of a configuration: its number, its state, the tape, and the number of the quintuple that is applied
// next.
fn push_moment(
    text: &mut Vec<u8>,
    table: &Table,
    word: &[u32],
    stage: &Stage,
    steps: u32,
    rule: Option<u32>,
) -> Result<(), NoMemory>
    requires word { IsWordOf table.now word.now }
    requires stage { IsShowable table.now word.now stage.now }
    ensures { (u : Endless) (count : ℕ) → StandsFor stage.now.tape word.now u →
        (stage.now.extent.first +ℤ pos count) ≡ (stage.now.extent.last +ℤ pos 1) → OnOk result (text.new.items
        ≡ text.old.items ++ stage_line table.now steps stage.now u count rule) }
{
    push_u64(text, u64::from(steps))?;
    push(text, b" ")?;
    push(text, table.state_name(stage.state))?;
    push_tape(text, table, &stage.tape, word, stage.extent)?;
    push_rule(text, rule)?;
    push(text, b"\n")
}

// Appends the number of the quintuple that is applied next, if there is one.
pub(crate) fn push_rule(text: &mut Vec<u8>, rule: Option<u32>) -> Result<(), NoMemory>
    ensures { OnOk result (text.new.items ≡ text.old.items ++ rule_text rule) }
{
    match rule {
        Some(number) => {
            push(text, b" rule ")?;
            push_u64(text, u64::from(number))
        }
        None => Ok(()),
    }
}

// Gives the bytes that are kept, and after them the line that says how the run ends. Returns its status.
fn give_outcome<K: Sink>(
    sink: &mut K,
    text: &mut Vec<u8>,
    table: &Table,
    stage: &Stage,
    ended: Ended,
) -> Status
    requires state { stage.now.state < table.now.machine.states }
    requires symbol { scanned stage.now.tape.tape < table.now.machine.symbols }
    ensures ends { (e : Ending) →
        IsOutcome table.now.machine stage.now.state (scanned stage.now.tape.tape) ended.rule e →
        OutcomeEnds (ending_status e) result (K.taken sink.old) (K.taken sink.new) (K.faults sink.old)
        (K.faults sink.new) (text.old.items ++ outcome_line table.now ended.steps e) }
    ensures later { CountsUnless (result ≡ Status.WriteFault) (K.faults sink.old) (K.faults sink.new) }
{
    let Ok(status) = push_outcome(text, table, stage, ended.steps, ended.rule) else {
        return Status::NoMemory;
    };
    finish(sink, text.as_slice(), status)
}
