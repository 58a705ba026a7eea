//! A run of a machine of quadruples, configuration by configuration.

ghost use Rattle.std.specs.Prelude.{◌≡◌, ◌≤◌, ◌+◌, ℕ, IfOk, length};
ghost use Rattle.bn_quad.specs.Quadruples.{Configuration, IsQuadMachine};
ghost use Rattle.bn_qtable.specs.Rows.{QuadTable, counts_of};
ghost use Rattle.bn_reply_traces.specs.QuadStages.{AreClear, AreWordsOn, IsQuadStage, IsSteppedTo, IsWide, first_of};

use crate::extent::Extent;
use bn_base::MOST_COUNT;
use bn_lists::NoMemory;
use bn_machine::{Tape, TapeRefusal};
use bn_quad::{IndexedMachine, QuadMachine, QuadTurn, Tapes};
use std::alloc::Global;

/// The symbols of the words on the three tapes at the start of a run.
#[derive(Clone, Copy)]
pub(crate) struct StartWords<'a> {
    pub(crate) one: &'a [u32],
    pub(crate) two: &'a [u32],
    pub(crate) three: &'a [u32],
}

/// The cells that are shown of three tapes.
#[derive(Clone, Copy)]
pub(crate) struct Extents {
    pub(crate) one: Extent,
    pub(crate) two: Extent,
    pub(crate) three: Extent,
}

/// A configuration of a run: the state, counted from 0, the tapes in their windows, and the cells of them that are
/// shown.
#[derive(Drop)]
pub(crate) struct QuadStage {
    pub(crate) state: u32,
    pub(crate) tapes: Tapes,
    pub(crate) extents: Extents,
}

impl QuadStage {
    // The start of a run of at most `steps` steps.
    pub(crate) fn start(
        alloc: Global,
        machine: &QuadMachine,
        words: &StartWords<'_>,
        steps: u32,
    ) -> Result<QuadStage, NoMemory>
        requires few { steps ≤ MOST_COUNT }
        ensures { IfOk result (λ s. (t : QuadTable) → t.machine ≡ machine.now → IsQuadMachine t.machine →
            t.machine.symbols ≡ counts_of t.names → t.machine.states ≡ length t.names.states →
            AreWordsOn t.names words.now → IsQuadStage t words.now steps 0 (first_of t.machine words.now) s) }
    {
        Ok(QuadStage {
            state: machine.initial_state(),
            tapes: Tapes {
                one: wide_tape(alloc, words.one, steps)?,
                two: wide_tape(alloc, words.two, steps)?,
                three: wide_tape(alloc, words.three, steps)?,
            },
            extents: Extents {
                one: Extent::of_word(words.one.len()),
                two: Extent::of_word(words.two.len()),
                three: Extent::of_word(words.three.len()),
            },
        })
    }

    // Makes the next step, if the machine has not halted and is not stuck. Returns the number of the quadruple, counted
    // from 1; `None` exactly if no step is made.
    pub(crate) fn step(&mut self, machine: &IndexedMachine<'_>) -> Option<u32>
        requires { AreClear self.old }
        ensures { (t : QuadTable) (words : StartWords) (n i : ℕ) (c : Configuration ℕ) → t.machine ≡ machine.now →
            IsQuadMachine t.machine → t.machine.symbols ≡ counts_of t.names →
            t.machine.states ≡ length t.names.states → i ≤ n → n ≤ MOST_COUNT →
            IsQuadStage t words n i c self.old → IsSteppedTo t words n i c self.old result self.new }
    {
        let one = self.tapes.one.head();
        let two = self.tapes.two.head();
        let three = self.tapes.three.head();
        match machine.step(&mut self.state, &mut self.tapes) {
            QuadTurn::Moved { quad } => {
                self.extents = Extents {
                    one: self.extents.one.follow(one, &self.tapes.one),
                    two: self.extents.two.follow(two, &self.tapes.two),
                    three: self.extents.three.follow(three, &self.tapes.three),
                };
                Some(quad)
            }
            QuadTurn::Left { .. } => unreachable!(),
            _ => None,
        }
    }
}

// A tape with a word, in a window that is larger than the steps and one more can reach. Only as many letters as a tape
// holds are written on it: no head moves so far that it scans the others.
fn wide_tape(alloc: Global, word: &[u32], steps: u32) -> Result<Tape, NoMemory>
    requires few { steps ≤ MOST_COUNT }
    ensures { IfOk result (IsWide word.now steps) }
{
    let held = (Tape::GREATEST_SIDE as usize).min(word.len());
    let side = steps + 2;
    let right = (held as u32).max(side);
    match Tape::try_new(alloc, side, right, &word[..held]) {
        Ok(tape) => Ok(tape),
        Err(TapeRefusal::NoMemory) => Err(NoMemory),
        Err(TapeRefusal::WordOutside { .. }) => unreachable!(),
    }
}
