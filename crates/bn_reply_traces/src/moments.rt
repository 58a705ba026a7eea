//! The command `moments`.

ghost use Rattle.std.specs.Prelude.{◌≡◌, ℕ, List, Option, [], ◌≤◌};
ghost use Rattle.bn_io.specs.Faults.{CountsUnless};
ghost use Rattle.bn_circuits.specs.declared.place.Place.{Place};
ghost use Rattle.bn_reply.specs.Lines.{foreign_line};
ghost use Rattle.bn_reply.specs.Streams.{AnswerEnds};
ghost use Rattle.bn_qtable.specs.Rows.{table_of};
ghost use Rattle.bn_reply_traces.specs.MomentsReply.{MomentsReplies, TellsMoments, ThreeMomentsReplies};
ghost use Rattle.bn_reply_machines.specs.QuadReply.{TapeWordReplies, tape_foreign_line};
ghost use Rattle.bn_reply_machines.specs.Opened.{IsAlphabet, IsWordOn};
ghost use Rattle.bn_reply_traces.specs.QuadStages.{IsAsked, asked_table};
ghost use Rattle.bn_quad.specs.Names.{symbols_on};

use crate::quad_run::QuadRun;
use crate::quad_stage::StartWords;
use bn_base::MOST_COUNT;
use bn_io::Sink;
use bn_lists::NoMemory;
use bn_quad::{IndexedMachine, QuadMachine, QuadNames};
use bn_reply::{Status, foreign_letter, give_reply};
use bn_reply_machines::{OpenedQuads, Spelling, TapeNames, foreign_on_tape, open_quads};
use std::alloc::Global;

/// The command `moments` for a word on tape 1, a greatest number of steps and some bytes. It refuses, in this order:
/// bytes that are no table of quadruples whose machine is deterministic and reversible; a word with other letters than
/// those of tape 1. Otherwise it writes to the sink, in pieces, a line for each configuration of the machine's own run
/// from the start to the last one, and the line that says how the run ends.
pub fn answer_moments<K: Sink>(
    alloc: Global,
    word: &[u8],
    most_steps: u32,
    bytes: &[u8],
    sink: &mut K,
) -> Status
    requires { most_steps ≤ MOST_COUNT }
    ensures ends { (told : Option (List Place)) → AnswerEnds (MomentsReplies word.now most_steps bytes.now) result
        (K.taken sink.old) (K.taken sink.new) (K.faults sink.old) (K.faults sink.new) told told }
    ensures later { CountsUnless (result ≡ Status.WriteFault) (K.faults sink.old) (K.faults sink.new) }
{
    match open_quads(alloc, bytes) {
        Ok(OpenedQuads::Read(machine, names)) => {
            let asked = Asked {
                machine: &machine,
                names: &names,
                most_steps,
            };
            asked.answer_word(alloc, word, sink)
        }
        Ok(OpenedQuads::Refused(reply)) => give_reply(sink, Ok(reply)),
        Err(NoMemory) => Status::NoMemory,
    }
}

/// The command `moments` for a word on each of the three tapes.
pub fn answer_three_moments<K: Sink>(
    alloc: Global,
    first: &[u8],
    second: &[u8],
    third: &[u8],
    most_steps: u32,
    bytes: &[u8],
    sink: &mut K,
) -> Status
    requires { most_steps ≤ MOST_COUNT }
    ensures ends { (told : Option (List Place)) → AnswerEnds
        (ThreeMomentsReplies first.now second.now third.now most_steps bytes.now) result
        (K.taken sink.old) (K.taken sink.new) (K.faults sink.old) (K.faults sink.new) told told }
    ensures later { CountsUnless (result ≡ Status.WriteFault) (K.faults sink.old) (K.faults sink.new) }
{
    match open_quads(alloc, bytes) {
        Ok(OpenedQuads::Read(machine, names)) => {
            let asked = Asked {
                machine: &machine,
                names: &names,
                most_steps,
            };
            asked.answer_first(alloc, first, second, third, sink)
        }
        Ok(OpenedQuads::Refused(reply)) => give_reply(sink, Ok(reply)),
        Err(NoMemory) => Status::NoMemory,
    }
}

/// A machine that passes both tests, with its names, and the greatest number of steps.
#[derive(Clone, Copy)]
pub(crate) struct Asked<'a> {
    machine: &'a QuadMachine,
    names: &'a QuadNames,
    most_steps: u32,
}

impl<'a> Asked<'a> {
    // The answer for a word on tape 1.
    fn answer_word<K: Sink>(&self, alloc: Global, word: &[u8], sink: &mut K) -> Status
        requires { IsAsked self.now }
        ensures ends { (told : Option (List Place)) → AnswerEnds (TapeWordReplies foreign_line
            (λ one. TellsMoments (asked_table self.now) self.now.most_steps one [] []) self.now.names.now.one word.now)
            result (K.taken sink.old) (K.taken sink.new) (K.faults sink.old) (K.faults sink.new) told told }
        ensures later { CountsUnless (result ≡ Status.WriteFault) (K.faults sink.old) (K.faults sink.new) }
    {
        match self.symbols(1).spell(alloc, word) {
            Ok(Spelling::Symbols(one)) => self.give(alloc, one.as_slice(), &[], &[], sink),
            Ok(Spelling::Foreign { place }) => give_reply(sink, foreign_letter(alloc, place)),
            Err(NoMemory) => Status::NoMemory,
        }
    }

    // The answer for a word on each tape: reads the first word.
    fn answer_first<K: Sink>(
        &self,
        alloc: Global,
        first: &[u8],
        second: &[u8],
        third: &[u8],
        sink: &mut K,
    ) -> Status
        requires { IsAsked self.now }
        ensures ends { (told : Option (List Place)) → AnswerEnds (TapeWordReplies (tape_foreign_line 1)
            (λ one. TapeWordReplies (tape_foreign_line 2) (λ two. TapeWordReplies (tape_foreign_line 3)
            (λ three. TellsMoments (asked_table self.now) self.now.most_steps one two three)
            self.now.names.now.three third.now) self.now.names.now.two second.now) self.now.names.now.one first.now)
            result (K.taken sink.old) (K.taken sink.new) (K.faults sink.old) (K.faults sink.new) told told }
        ensures later { CountsUnless (result ≡ Status.WriteFault) (K.faults sink.old) (K.faults sink.new) }
    {
        match self.symbols(1).spell(alloc, first) {
            Ok(Spelling::Symbols(one)) => {
                self.answer_second(alloc, one.as_slice(), second, third, sink)
            }
            Ok(Spelling::Foreign { place }) => give_reply(sink, foreign_on_tape(alloc, 1, place)),
            Err(NoMemory) => Status::NoMemory,
        }
    }

    // Reads the second word, given the symbols of the first.
    fn answer_second<K: Sink>(
        &self,
        alloc: Global,
        one: &[u32],
        second: &[u8],
        third: &[u8],
        sink: &mut K,
    ) -> Status
        requires asked { IsAsked self.now }
        requires one { IsWordOn self.now.names.now.one one.now }
        ensures ends { (told : Option (List Place)) → AnswerEnds (TapeWordReplies (tape_foreign_line 2)
            (λ two. TapeWordReplies (tape_foreign_line 3)
            (λ three. TellsMoments (asked_table self.now) self.now.most_steps one.now two three)
            self.now.names.now.three third.now) self.now.names.now.two second.now)
            result (K.taken sink.old) (K.taken sink.new) (K.faults sink.old) (K.faults sink.new) told told }
        ensures later { CountsUnless (result ≡ Status.WriteFault) (K.faults sink.old) (K.faults sink.new) }
    {
        match self.symbols(2).spell(alloc, second) {
            Ok(Spelling::Symbols(two)) => {
                self.answer_third(alloc, one, two.as_slice(), third, sink)
            }
            Ok(Spelling::Foreign { place }) => give_reply(sink, foreign_on_tape(alloc, 2, place)),
            Err(NoMemory) => Status::NoMemory,
        }
    }

    // Reads the third word.
    fn answer_third<K: Sink>(
        &self,
        alloc: Global,
        one: &[u32],
        two: &[u32],
        third: &[u8],
        sink: &mut K,
    ) -> Status
        requires asked { IsAsked self.now }
        requires one { IsWordOn self.now.names.now.one one.now }
        requires two { IsWordOn self.now.names.now.two two.now }
        ensures ends { (told : Option (List Place)) → AnswerEnds (TapeWordReplies (tape_foreign_line 3)
            (λ three. TellsMoments (asked_table self.now) self.now.most_steps one.now two.now three)
            self.now.names.now.three third.now)
            result (K.taken sink.old) (K.taken sink.new) (K.faults sink.old) (K.faults sink.new) told told }
        ensures later { CountsUnless (result ≡ Status.WriteFault) (K.faults sink.old) (K.faults sink.new) }
    {
        match self.symbols(3).spell(alloc, third) {
            Ok(Spelling::Symbols(three)) => self.give(alloc, one, two, three.as_slice(), sink),
            Ok(Spelling::Foreign { place }) => give_reply(sink, foreign_on_tape(alloc, 3, place)),
            Err(NoMemory) => Status::NoMemory,
        }
    }

    // The names of the symbols of a tape from 1 to 3.
    fn symbols(&self, tape: u32) -> TapeNames<'a>
        requires asked { IsAsked self.now }
        requires first { 1 ≤ tape }
        requires last { tape ≤ 3 }
        ensures names { result ≡ symbols_on self.now.names.now tape }
        ensures alphabet { IsAlphabet result }
    {
        TapeNames::of(self.machine, self.names, tape)
    }

    // Writes the configurations of the run from words of these symbols.
    fn give<K: Sink>(
        &self,
        alloc: Global,
        one: &[u32],
        two: &[u32],
        three: &[u32],
        sink: &mut K,
    ) -> Status
        requires asked { IsAsked self.now }
        requires one { IsWordOn self.now.names.now.one one.now }
        requires two { IsWordOn self.now.names.now.two two.now }
        requires three { IsWordOn self.now.names.now.three three.now }
        ensures ends { (told : Option (List Place)) → AnswerEnds
            (TellsMoments (asked_table self.now) self.now.most_steps one.now two.now three.now)
            result (K.taken sink.old) (K.taken sink.new) (K.faults sink.old) (K.faults sink.new) told told }
        ensures later { CountsUnless (result ≡ Status.WriteFault) (K.faults sink.old) (K.faults sink.new) }
    {
        let Ok(indexed) = IndexedMachine::try_new(alloc, self.machine) else {
            return Status::NoMemory;
        };
        let run = QuadRun {
            machine: self.machine,
            indexed,
            names: self.names,
            words: StartWords { one, two, three },
            most_steps: self.most_steps,
        };
        run.give(alloc, sink)
    }
}
