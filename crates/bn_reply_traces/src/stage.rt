//! A run of a machine of quintuples, configuration by configuration.

ghost use Rattle.std.specs.Prelude.{◌≡◌, ◌≢◌, ℕ, List, ◌<◌, ◌≤◌, ◌+◌, ◌^◌, ◌↔◌, All};
ghost use Rattle.std.specs.Prelude.{IfOk, IsTrue, Some, length, MatchOption};
ghost use Rattle.bn_machine.specs.Machine.{HasNoMatch, IsFirstMatch, IsLeaving, Matches};
ghost use Rattle.bn_machine.specs.declared.quint.Side.{Side};
ghost use Rattle.bn_machine.specs.declared.quint.Quint.{Quint};
ghost use Rattle.bn_machine.specs.Tape.{scanned};
ghost use Rattle.bn_table.specs.Rows.{Named};
ghost use Rattle.bn_reply_traces.specs.Stages.{IsRule, IsStageAfter};

use crate::extent::Extent;
use bn_base::MOST_COUNT;
use bn_lists::NoMemory;
use bn_machine::{Machine, Quint, Tape, TapeRefusal, Turn};
use bn_reply_machines::letter_at;
use std::alloc::Global;

/// A configuration of a run: the state, counted from 0, the tape in its window, and the cells of it that are shown.
#[derive(Drop)]
pub(crate) struct Stage {
    pub(crate) state: u32,
    pub(crate) tape: Tape,
    pub(crate) extent: Extent,
}

impl Stage {
    // The start of a run of at most `steps` steps from a word without blanks. Only as many letters as a tape holds are
    // written on the tape: no head moves so far that it scans the others.
    pub(crate) fn start(
        alloc: Global,
        machine: &Machine,
        word: &[u32],
        steps: u32,
    ) -> Result<Stage, NoMemory>
        requires few { steps ≤ MOST_COUNT }
        requires letters { All (λ symbol. symbol ≢ 0) word.now }
        ensures { IfOk result (λ s. (t : Named) → t.machine ≡ machine.now → IsStageAfter t word.now steps 0 s) }
    {
        let held = (Tape::GREATEST_SIDE as usize).min(word.len());
        let right = (held as u32).max(steps + 1);
        let tape = match Tape::try_new(alloc, steps + 1, right, &word[..held]) {
            Ok(tape) => tape,
            Err(TapeRefusal::NoMemory) => return Err(NoMemory),
            Err(TapeRefusal::WordOutside { .. }) => unreachable!(),
        };
        Ok(Stage {
            state: machine.start_state(),
            tape,
            extent: Extent::of_word(word.len()),
        })
    }

    // The number, counted from 1, of the quintuple that is applied next; `None` exactly if the machine has halted or is
    // stuck.
    pub(crate) fn rule(&self, machine: &Machine) -> Option<u32>
        ensures { IsRule machine.now self.now.state (scanned self.now.tape.tape) result }
    {
        if self.state == machine.final_state() {
            return None;
        }
        first_rule(machine.quints(), self.state, self.tape.scanned())
    }

    // Makes a step of a run that stays in its window.
    pub(crate) fn go_on(&mut self, machine: &Machine)
        requires rule { (n : ℕ) × IsRule machine.now self.old.state (scanned self.old.tape.tape) (Some n) }
        requires stays { (side : Side) → IsLeaving machine.now self.old.state self.old.tape side → ⊥ }
        ensures { (t : Named) (word : List ℕ) (n i : ℕ) → t.machine ≡ machine.now → i < n →
            n ≤ MOST_COUNT → IsStageAfter t word n i self.old → IsStageAfter t word n (i + 1) self.new }
    {
        let left = self.tape.head();
        match machine.step(&mut self.state, &mut self.tape) {
            Turn::Moved => {}
            _ => unreachable!(),
        }
        let head = self.tape.head();
        let is_blank = letter_at(&self.tape, left).is_none();
        self.extent = self.extent.after(left, is_blank, head);
    }
}

// The number, counted from 1, of the first quintuple that has this state and reads this symbol.
fn first_rule(quints: &[Quint], state: u32, symbol: u32) -> Option<u32>
    requires { length quints.now < 2 ^ 32 }
    ensures { MatchOption result (HasNoMatch quints.now state symbol) (λ n. (q : Quint)
        × IsFirstMatch quints.now state symbol n q) }
{
    for (index, quint) in quints.iter().enumerate() {
        if is_match(quint, state, symbol) {
            return Some(index as u32 + 1);
        }
    }
    None
}

// Whether the quintuple has this state and reads this symbol.
fn is_match(quint: &Quint, state: u32, symbol: u32) -> bool
    ensures { IsTrue result ↔ Matches quint.now state symbol }
{
    state == quint.state && symbol == quint.read
}
