//! The run of the erasing machine from a word.

ghost use Rattle.std.specs.Prelude.{◌≡◌, ◌+◌, ◌≤◌, IfOk, length, max};
ghost use Rattle.bn_machine.specs.Window.{new_window};
ghost use Rattle.bn_machine.specs.Run.{IsOutput};
ghost use Rattle.bn_erase_laws.specs.Outcome.{rewound};
ghost use Rattle.bn_reply_erase.specs.EraseRun.{ComesOutOf, HasEnded, IsErasingOfSome, IsRun, StaysInside};

use bn_base::MOST_COUNT;
use bn_erase::Erasing;
use bn_lists::NoMemory;
use bn_machine::{Tape, TapeRefusal};
use bn_quad::{IndexedMachine, QuadTurn, Tapes};
use bn_reply_machines::letter_at;
use std::alloc::Global;

/// The result of a run.
#[derive(Drop)]
pub(crate) enum Ending {
    /// The machine is in the final state; the words on tapes 1 and 3, from cell 1 on.
    Halted { work: Vec<u32>, output: Vec<u32> },
    /// No quadruple applies in this state, counted from 0.
    Stuck { state: u32 },
    /// All steps are made, and a further one is possible.
    Running,
}

/// The result of a run, and the number of steps after which it comes.
#[derive(Drop)]
pub(crate) struct Ended {
    pub(crate) steps: u32,
    pub(crate) ending: Ending,
}

/// The run of at most `steps` steps from a word, on tapes without ends: each is as wide as the run is long, so that no
/// head reaches its end.
pub(crate) fn run_word(
    alloc: Global,
    erasing: &Erasing,
    word: &[u32],
    steps: u32,
) -> Result<Ended, NoMemory>
    requires few { steps ≤ MOST_COUNT }
    requires short { length word.now ≤ MOST_COUNT }
    requires erasing { IsErasingOfSome erasing.now }
    ensures { IfOk result (λ r. HasEnded erasing.now word.now steps r.steps r.ending) }
{
    let machine = erasing.machine().machine();
    let indexed = IndexedMachine::try_new(alloc, machine)?;
    let mut tapes = Tapes {
        one: wide_tape(alloc, steps + 1, word)?,
        two: wide_tape(alloc, steps + 1, &[])?,
        three: wide_tape(alloc, steps + 1, &[])?,
    };
    let mut state = machine.initial_state();
    let (made, turn) = run(&indexed, &mut state, &mut tapes, steps);
    Ok(Ended {
        steps: made,
        ending: ending_after(alloc, turn, state, &tapes)?,
    })
}

// A tape with this word that reaches at least this many cells to each side.
fn wide_tape(alloc: Global, side: u32, word: &[u32]) -> Result<Tape, NoMemory>
    requires few { side ≤ MOST_COUNT + 1 }
    requires short { length word.now ≤ MOST_COUNT }
    ensures { IfOk result (λ t. t ≡ new_window side (max side (length word.now)) word.now) }
{
    let right = side.max(word.len() as u32);
    match Tape::try_new(alloc, side, right, word) {
        Ok(tape) => Ok(tape),
        Err(TapeRefusal::NoMemory) => Err(NoMemory),
        Err(TapeRefusal::WordOutside { .. }) => unreachable!(),
    }
}

// Makes at most `steps` steps, and then one more if all are made. Returns how many were made before the last turn, and
// that turn.
fn run(
    machine: &IndexedMachine<'_>,
    state: &mut u32,
    tapes: &mut Tapes,
    steps: u32,
) -> (u32, QuadTurn)
    ensures { IsRun machine.now steps state.old tapes.old result.0 result.1 state.new tapes.new }
{
    for made in 0..steps {
        match machine.step(state, tapes) {
            QuadTurn::Moved { .. } => {}
            turn => return (made, turn),
        }
    }
    (steps, machine.step(state, tapes))
}

// The result of a run that ends with this turn, and leaves this state and these tapes.
fn ending_after(
    alloc: Global,
    turn: QuadTurn,
    state: u32,
    tapes: &Tapes,
) -> Result<Ending, NoMemory>
    requires { StaysInside turn }
    ensures { IfOk result (ComesOutOf turn state tapes.now) }
{
    match turn {
        QuadTurn::Final => Ok(Ending::Halted {
            work: word_on(alloc, &tapes.one)?,
            output: word_on(alloc, &tapes.three)?,
        }),
        QuadTurn::Stuck => Ok(Ending::Stuck { state }),
        QuadTurn::Moved { .. } => Ok(Ending::Running),
        QuadTurn::Left { .. } => unreachable!(),
    }
}

// The longest word without blanks from cell 1 on.
fn word_on(alloc: Global, tape: &Tape) -> Result<Vec<u32>, NoMemory>
    ensures { IfOk result (λ y. IsOutput (rewound tape.now.tape) y.items) }
{
    let mut word = Vec::new(alloc);
    let mut position = 1;
    while let Some(symbol) = letter_at(tape, position) {
        word.push(symbol)?;
        position += 1;
    }
    Ok(word)
}
