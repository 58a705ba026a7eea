//! The least window of a machine of quadruples and words on its tapes, from the machine's own run.

ghost use Rattle.std.specs.Prelude.{◌≡◌, ◌≤◌, ◌<◌, ◌+◌, ℕ, IfOk};
ghost use Rattle.bn_quad.specs.Quadruples.{Configuration};
ghost use Rattle.bn_network.specs.Starts.{words_on};
ghost use Rattle.bn_rooms.specs.RoomOutcome.{HasRoomOutcome};
ghost use Rattle.bn_reply_rooms.specs.RoomRun.{IsMeasured, IsRoomStage, IsRoomTape, outcome_of};

use crate::reach::{Reach, Room, StartWords};
use bn_base::MOST_COUNT;
use bn_lists::NoMemory;
use bn_machine::{Tape, TapeRefusal};
use bn_quad::{IndexedMachine, QuadMachine, QuadTurn, Tapes};
use std::alloc::Global;

/// What a run shows of the least window.
#[derive(Clone, Copy)]
pub(crate) enum Found {
    /// The machine halts or is stuck, and this is its least window.
    Room(Room),
    /// No window has room: the head of this tape, the least such one, goes left of position 0.
    NoRoom { tape: u32 },
    /// The machine still runs.
    Running,
}

/// A run on three tapes: its steps, how far the heads have gone in them, and the result of the next step.
#[derive(Clone, Copy)]
pub(crate) struct Measured {
    pub(crate) steps: u32,
    pub(crate) reach: Reach,
    pub(crate) turn: QuadTurn,
}

impl Measured {
    // What the run of at most `most_steps` steps from words shows.
    fn outcome(&self, words: &StartWords<'_>, most_steps: u32) -> Found
        ensures { (m : _) → IsMeasured m most_steps (words_on m words.now.one.now words.now.two.now words.now.three.now)
            self.now → HasRoomOutcome m words.now.one.now words.now.two.now words.now.three.now most_steps
            (outcome_of result) }
    {
        match self.turn {
            QuadTurn::Final | QuadTurn::Stuck => Found::Room(self.reach.with_words(words)),
            QuadTurn::Left { tape, .. } => {
                if self.steps < most_steps {
                    Found::NoRoom { tape }
                } else {
                    Found::Running
                }
            }
            QuadTurn::Moved { .. } => Found::Running,
        }
    }
}

/// The least window in which the run of a machine from words on its tapes ends as the machine itself does; or that the
/// head of tape 2 or 3 goes left of position 0 within `most_steps` steps, or that the machine still runs after these
/// steps. Tapes 2 and 3 begin at position 0 here.
pub(crate) fn find_room(
    alloc: Global,
    machine: &QuadMachine,
    words: &StartWords<'_>,
    most_steps: u32,
) -> Result<Found, NoMemory>
    requires few { most_steps ≤ MOST_COUNT }
    ensures { IfOk result (λ found. HasRoomOutcome machine.now words.now.one.now words.now.two.now words.now.three.now
        most_steps (outcome_of found)) }
{
    let indexed = IndexedMachine::try_new(alloc, machine)?;
    let mut tapes = Tapes {
        one: wide_tape(alloc, most_steps + 1, words.one, most_steps)?,
        two: wide_tape(alloc, 0, words.two, most_steps)?,
        three: wide_tape(alloc, 0, words.three, most_steps)?,
    };
    let mut state = machine.initial_state();
    let measured = measure(&indexed, &mut state, &mut tapes, most_steps);
    Ok(measured.outcome(words, most_steps))
}

// Makes at most `most_steps` steps, and then one more if all are made. Returns how many were made before the last turn,
// how far the heads went in them, and that turn.
fn measure(
    machine: &IndexedMachine<'_>,
    state: &mut u32,
    tapes: &mut Tapes,
    most_steps: u32,
) -> Measured
    ensures { (c : Configuration ℕ) → IsRoomStage most_steps 0 c state.old tapes.old
        → IsMeasured machine.now most_steps c result }
{
    let mut reach = Reach::at_start();
    for steps in 0..most_steps {
        match machine.step(state, tapes) {
            QuadTurn::Moved { .. } => reach.include(tapes),
            turn => return Measured { steps, reach, turn },
        }
    }
    let turn = machine.step(state, tapes);
    Measured {
        steps: most_steps,
        reach,
        turn,
    }
}

// A tape with a word, with `left` cells left of position 0, and to the right more than the steps can reach. Only as
// many letters as a tape holds are written on it: no head moves so far that it scans the others.
fn wide_tape(alloc: Global, left: u32, word: &[u32], steps: u32) -> Result<Tape, NoMemory>
    requires few { steps ≤ MOST_COUNT }
    requires left { left ≤ MOST_COUNT + 1 }
    ensures left { IfOk result (λ t. t.left ≡ left) }
    ensures wide { IfOk result (IsRoomTape steps 0 word.now) }
{
    let held = (Tape::GREATEST_SIDE as usize).min(word.len());
    let right = (held as u32).max(steps + 1);
    match Tape::try_new(alloc, left, right, &word[..held]) {
        Ok(tape) => Ok(tape),
        Err(TapeRefusal::NoMemory) => Err(NoMemory),
        Err(TapeRefusal::WordOutside { .. }) => unreachable!(),
    }
}
