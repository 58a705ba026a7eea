//! The printed run of a machine of quadruples.

ghost use Rattle.std.specs.Prelude.{◌≡◌, ℕ, List, Option, [], ◌+◌, ◌≤◌, ◌++◌, IfOk, OnErr, IsErrOf};
ghost use Rattle.bn_circuits.specs.declared.place.Place.{Place};
ghost use Rattle.bn_io.specs.Faults.{Rose, CountsUnless};
ghost use Rattle.bn_io.specs.Told.{Grows, GrowsByFront};
ghost use Rattle.bn_quad.specs.Names.{symbols_on};
ghost use Rattle.bn_quad.specs.Quadruples.{Configuration};
ghost use Rattle.bn_reply.specs.Streams.{AnswerEnds};
ghost use Rattle.bn_reply_traces.specs.MomentsReply.{ComesOut, Outcome, TellsMoments, moments_outcome_line};
ghost use Rattle.bn_reply_traces.specs.MomentsReply.{outcome_status};
ghost use Rattle.bn_reply_traces.specs.QuadStages.{AreQuadTold, AreQuadToldInPart, IsLineIn, IsQuadEndedAt, IsQuadRun};
ghost use Rattle.bn_reply_traces.specs.QuadStages.{IsSomeStage, IsStageIn, IsSteppedTo, first_of, table_in};
ghost use Rattle.bn_reply_traces.specs.Stages.{OutcomeEnds};

use crate::quad_stage::{QuadStage, StartWords};
use crate::quad_text::{push_configuration, push_line_end, push_moments_outcome};
use crate::trace::{Ended, Unfinished};
use bn_io::{Sink, WriteFault, give_pieces};
use bn_lists::NoMemory;
use bn_quad::{IndexedMachine, QuadMachine, QuadNames};
use bn_reply::{Status, finish};
use bn_reply_machines::TapeNames;
use std::alloc::Global;

/// A machine with its index and its names, the symbols of the words on its tapes, and the greatest number of steps.
#[derive(Drop)]
pub(crate) struct QuadRun<'a> {
    pub(crate) machine: &'a QuadMachine,
    pub(crate) indexed: IndexedMachine<'a>,
    pub(crate) names: &'a QuadNames,
    pub(crate) words: StartWords<'a>,
    pub(crate) most_steps: u32,
}

impl<'a> QuadRun<'a> {
    // The names of the symbols of a tape from 1 to 3.
    pub(crate) fn symbols(&self, tape: u32) -> TapeNames<'a>
        requires run { IsQuadRun self.now }
        requires first { 1 ≤ tape }
        requires last { tape ≤ 3 }
        ensures { result ≡ symbols_on self.now.names.now tape }
    {
        TapeNames::of(self.machine, self.names, tape)
    }

    // Gives the sink, in pieces, a line for each configuration of the run, and the line that says how the run ends.
    pub(crate) fn give<K: Sink>(&self, alloc: Global, sink: &mut K) -> Status
        requires { IsQuadRun self.now }
        ensures ends { (told : Option (List Place)) → AnswerEnds (TellsMoments (table_in self.now) self.now.most_steps
            self.now.words.one.now self.now.words.two.now self.now.words.three.now) result
            (K.taken sink.old) (K.taken sink.new) (K.faults sink.old) (K.faults sink.new) told told }
        ensures later { CountsUnless (result ≡ Status.WriteFault) (K.faults sink.old) (K.faults sink.new) }
    {
        let Ok(mut stage) = QuadStage::start(alloc, self.machine, &self.words, self.most_steps)
        else {
            return Status::NoMemory;
        };
        let mut text = Vec::new(alloc);
        match self.give_lines(sink, &mut text, &mut stage) {
            Ok(ended) => self.give_outcome(sink, &mut text, &stage, ended),
            Err(Unfinished::WriteFault) => Status::WriteFault,
            Err(Unfinished::NoMemory) => Status::NoMemory,
        }
    }

    // Gives, in pieces, the line of each configuration from the start to the last one, and keeps in `text` the bytes
    // that follow the last whole piece.
    fn give_lines<K: Sink>(
        &self,
        sink: &mut K,
        text: &mut Vec<u8>,
        stage: &mut QuadStage,
    ) -> Result<Ended, Unfinished>
        requires run { IsQuadRun self.now }
        requires start { IsStageIn self.now 0 (first_of self.now.machine.now self.now.words) stage.old }
        requires empty { text.old.items ≡ [] }
        ensures told { IfOk result (λ e. AreQuadTold self.now (K.taken sink.old) (K.taken sink.new) text.new.items
            (e.steps + 1)) }
        ensures at { IfOk result (λ e. (c : Configuration ℕ) × IsQuadEndedAt self.now c stage.new e.steps e.rule) }
        ensures front { OnErr result (AreQuadToldInPart self.now (K.taken sink.old) (K.taken sink.new)) }
        ensures later { CountsUnless (IsErrOf result Unfinished.WriteFault) (K.faults sink.old) (K.faults sink.new) }
        ensures write_fault { IsErrOf result Unfinished.WriteFault → Rose (K.faults sink.old) (K.faults sink.new) }
    {
        for steps in 0..self.most_steps {
            let rule = self.tell_moment(sink, text, stage, steps)?;
            if rule.is_none() {
                return Ok(Ended { steps, rule });
            }
        }
        let rule = self.tell_moment(sink, text, stage, self.most_steps)?;
        Ok(Ended {
            steps: self.most_steps,
            rule,
        })
    }

    // Appends the line of a configuration, makes the next step, and gives all whole pieces. Returns the quadruple that
    // was applied, if there is one.
    fn tell_moment<K: Sink>(
        &self,
        sink: &mut K,
        text: &mut Vec<u8>,
        stage: &mut QuadStage,
        steps: u32,
    ) -> Result<Option<u32>, Unfinished>
        requires run { IsQuadRun self.now }
        requires stage { IsSomeStage self.now steps stage.old }
        requires early { steps ≤ self.now.most_steps }
        ensures told { IfOk result (λ rule. (line piece : List ℕ) × IsLineIn self.now steps line
            × (text.old.items ++ line ≡ piece ++ text.new.items) × Grows (K.taken sink.old) (K.taken sink.new) piece) }
        ensures stepped { IfOk result (λ rule. (c : Configuration ℕ) → IsStageIn self.now steps c stage.old →
            IsSteppedTo (table_in self.now) self.now.words self.now.most_steps steps c stage.old rule stage.new) }
        ensures front { OnErr result ((line : List ℕ) × IsLineIn self.now steps line
            × GrowsByFront (K.taken sink.old) (K.taken sink.new) (text.old.items ++ line)) }
        ensures later { CountsUnless (IsErrOf result Unfinished.WriteFault) (K.faults sink.old) (K.faults sink.new) }
        ensures write_fault { IsErrOf result Unfinished.WriteFault → Rose (K.faults sink.old) (K.faults sink.new) }
    {
        let Ok(()) = push_configuration(text, self, stage, steps) else {
            return Err(Unfinished::NoMemory);
        };
        let rule = stage.step(&self.indexed);
        let Ok(()) = push_line_end(text, rule) else {
            return Err(Unfinished::NoMemory);
        };
        match give_pieces(sink, text) {
            Ok(()) => Ok(rule),
            Err(WriteFault) => Err(Unfinished::WriteFault),
        }
    }

    // Gives the bytes that are kept, and after them the line that says how the run ends. Returns its status.
    fn give_outcome<K: Sink>(
        &self,
        sink: &mut K,
        text: &mut Vec<u8>,
        stage: &QuadStage,
        ended: Ended,
    ) -> Status
        requires run { IsQuadRun self.now }
        requires ended { (c : Configuration ℕ) × IsQuadEndedAt self.now c stage.now ended.steps ended.rule }
        ensures ends { (c : Configuration ℕ) (o : Outcome) →
            IsQuadEndedAt self.now c stage.now ended.steps ended.rule →
            ComesOut self.now.machine.now self.now.most_steps ended.steps c o →
            OutcomeEnds (outcome_status o) result (K.taken sink.old) (K.taken sink.new) (K.faults sink.old)
            (K.faults sink.new) (text.old.items ++ moments_outcome_line (table_in self.now) ended.steps c o) }
        ensures later { CountsUnless (result ≡ Status.WriteFault) (K.faults sink.old) (K.faults sink.new) }
    {
        let Ok(status) = push_moments_outcome(text, self, stage, ended.steps, ended.rule) else {
            return Status::NoMemory;
        };
        finish(sink, text.as_slice(), status)
    }
}
