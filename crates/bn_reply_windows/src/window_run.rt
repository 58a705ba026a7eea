//! The least window of a machine and a word, from the machine's own run.

ghost use Rattle.std.specs.Prelude.{◌≡◌, ◌≢◌, ◌<◌, ◌≤◌, ◌^◌, All, IfOk, pos, ◌+ℤ◌, ◌-ℤ◌, ◌≤ℤ◌};
ghost use Rattle.bn_machine.specs.declared.tape.TheConstants.Tape.{GREATEST_SIDE};
ghost use Rattle.bn_extents.specs.Formula.{halted_limits, stuck_limits};
ghost use Rattle.bn_reply_windows.specs.WindowRun.{HasLetters, HasOutputLength, IsFound, IsMeasured, limits_of};

use crate::extent::Extent;
use bn_base::MOST_COUNT;
use bn_lists::NoMemory;
use bn_machine::{Machine, Tape, TapeRefusal, Turn};
use bn_reply_machines::letter_at;
use std::alloc::Global;

/// The least window of a machine and a word, in the order in which `run` takes the numbers.
#[derive(Clone, Copy)]
pub(crate) struct LeastWindow {
    /// The cells left of position 0 on tape 1.
    pub(crate) left: u32,
    /// The cells right of position 0 on tape 1.
    pub(crate) right: usize,
    /// The steps that tape 2 holds.
    pub(crate) steps: u32,
    /// The cells right of position 0 on tape 3.
    pub(crate) output: usize,
}

/// A run on a tape: its steps, and how far the head has gone.
#[derive(Clone, Copy)]
pub(crate) struct Measured {
    pub(crate) steps: u32,
    pub(crate) extent: Extent,
    pub(crate) turn: Turn,
}

impl Measured {
    // The least window if the run halts with its head at a position and this many letters in its output, from a word
    // of this many letters.
    fn halted(&self, word: usize, head: i64, letters: usize) -> LeastWindow
        requires low { (pos 0 -ℤ pos GREATEST_SIDE) ≤ℤ head }
        requires high { head ≤ℤ pos GREATEST_SIDE }
        requires few { letters < 2 ^ 62 }
        ensures { limits_of result
            ≡ halted_limits word self.now.extent.left self.now.extent.right self.now.steps head letters }
    {
        let blank = head + letters as i64 + 1;
        LeastWindow {
            left: self.extent.left,
            right: (self.extent.right as usize)
                .max(word)
                .max(blank.max(0) as usize),
            steps: self.steps,
            output: letters + 1,
        }
    }

    // The least window if the machine is stuck.
    fn stuck(&self, word: usize) -> LeastWindow
        ensures { limits_of result
            ≡ stuck_limits word self.now.extent.left self.now.extent.right self.now.steps }
    {
        LeastWindow {
            left: self.extent.left,
            right: (self.extent.right as usize).max(word),
            steps: self.steps,
            output: 0,
        }
    }
}

/// The least window in which the bounded run from a word without blanks ends as the machine itself does; `None` exactly
/// if the machine still runs after `most_steps` steps. Only as many letters as a tape holds are written on the tape: no
/// head moves so far that it scans the others.
pub(crate) fn find_window(
    alloc: Global,
    machine: &Machine,
    word: &[u32],
    most_steps: u32,
) -> Result<Option<LeastWindow>, NoMemory>
    requires few { most_steps ≤ MOST_COUNT }
    requires letters { All (λ symbol. symbol ≢ 0) word.now }
    ensures { IfOk result (IsFound machine.now word.now most_steps) }
{
    let held = (Tape::GREATEST_SIDE as usize).min(word.len());
    let right = (held as u32).max(most_steps + 1);
    let mut tape = match Tape::try_new(alloc, most_steps + 1, right, &word[..held]) {
        Ok(tape) => tape,
        Err(TapeRefusal::NoMemory) => return Err(NoMemory),
        Err(TapeRefusal::WordOutside { .. }) => unreachable!(),
    };
    let mut state = machine.start_state();
    let measured = measure(machine, &mut state, &mut tape, most_steps);
    match measured.turn {
        Turn::Final => {
            let letters = output_length(&tape, word.len() - held);
            Ok(Some(measured.halted(word.len(), tape.head(), letters)))
        }
        Turn::Stuck { .. } => Ok(Some(measured.stuck(word.len()))),
        Turn::Moved => Ok(None),
        Turn::Left { .. } => unreachable!(),
    }
}

// Makes at most `most_steps` steps, and then one more if all are made. Returns how many were made before the last turn,
// how far the head went in them, and that turn.
fn measure(machine: &Machine, state: &mut u32, tape: &mut Tape, most_steps: u32) -> Measured
    ensures { IsMeasured machine.now most_steps state.old tape.old result.steps result.extent result.turn
        state.new tape.new }
{
    let mut extent = Extent::at_start();
    for steps in 0..most_steps {
        match machine.step(state, tape) {
            Turn::Moved => extent.include(tape.head()),
            turn => {
                return Measured {
                    steps,
                    extent,
                    turn,
                };
            }
        }
    }
    let turn = machine.step(state, tape);
    Measured {
        steps: most_steps,
        extent,
        turn,
    }
}

// The number of letters of the output, with the rest of the word beyond the tape if it reaches so far.
fn output_length(tape: &Tape, rest: usize) -> usize
    requires { rest < 2 ^ 61 }
    ensures length { HasOutputLength tape.now rest result }
    ensures few { result < 2 ^ 62 }
{
    let letters = letters_right(tape);
    if tape.head() + i64::from(letters) == i64::from(Tape::GREATEST_SIDE) {
        letters as usize + rest
    } else {
        letters as usize
    }
}

// The number of letters directly right of the head.
fn letters_right(tape: &Tape) -> u32
    ensures letters { HasLetters tape.now.tape result }
    ensures inside { (tape.now.tape.head +ℤ pos result) ≤ℤ pos tape.now.right }
    ensures few { result ≤ 4194304 }
{
    let first = tape.head() + 1;
    let mut letters = 0;
    while letter_at(tape, first + i64::from(letters)).is_some() {
        letters += 1;
    }
    letters
}
