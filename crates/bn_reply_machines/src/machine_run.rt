//! The run of a machine from a word of any length.

ghost use Rattle.std.specs.Prelude.{◌≡◌, ◌≢◌, ◌≤◌, All, IfOk, MatchOption, pos, ◌+ℤ◌, ◌≤ℤ◌, length};
ghost use Rattle.bn_machine.specs.Run.{HasEnding, IsOutput};
ghost use Rattle.bn_machine.specs.Tape.{cell};
ghost use Rattle.bn_machine.specs.Window.{IsWindowed};
ghost use Rattle.bn_reply_machines.specs.MachineRun.{IsEndingOf, IsLetterAt, IsRun, StaysInside, IsWholeOutput};
ghost use Rattle.bn_reply_machines.specs.MachineRun.{ending_of};

use bn_base::MOST_COUNT;
use bn_lists::NoMemory;
use bn_machine::{Machine, Tape, TapeRefusal, Turn};
use std::alloc::Global;

/// The result of a run.
#[derive(Drop)]
pub(crate) enum Ending {
    /// The machine has halted; the symbols of the output.
    Halted(Vec<u32>),
    /// No quintuple has this state and this scanned symbol, both counted from 0.
    Stuck { state: u32, symbol: u32 },
    /// All steps are made, and a further one is possible.
    Running,
}

/// The result of a run, and the number of steps after which it comes.
#[derive(Drop)]
pub(crate) struct Ended {
    pub(crate) steps: u32,
    pub(crate) ending: Ending,
}

/// The run of at most `steps` steps from a word without blanks, on a tape without ends. Only as many letters as a tape
/// holds are written on the tape: no head moves so far that it scans the others.
pub(crate) fn run_word(
    alloc: Global,
    machine: &Machine,
    word: &[u32],
    steps: u32,
) -> Result<Ended, NoMemory>
    requires few { steps ≤ MOST_COUNT }
    requires letters { All (λ symbol. symbol ≢ 0) word.now }
    ensures { IfOk result (λ r. HasEnding machine.now word.now steps r.steps (ending_of r.ending)) }
{
    let held = (Tape::GREATEST_SIDE as usize).min(word.len());
    let right = (held as u32).max(steps + 1);
    let mut tape = match Tape::try_new(alloc, steps + 1, right, &word[..held]) {
        Ok(tape) => tape,
        Err(TapeRefusal::NoMemory) => return Err(NoMemory),
        Err(TapeRefusal::WordOutside { .. }) => unreachable!(),
    };
    let mut state = machine.start_state();
    let (made, turn) = run(machine, &mut state, &mut tape, steps);
    Ok(Ended {
        steps: made,
        ending: ending_after(alloc, turn, &tape, &word[held..])?,
    })
}

// The result of a run that ends with this turn and this tape, given the rest of the word beyond the tape.
fn ending_after(alloc: Global, turn: Turn, tape: &Tape, rest: &[u32]) -> Result<Ending, NoMemory>
    requires { StaysInside turn }
    ensures { IfOk result (IsEndingOf turn tape.now rest.now) }
{
    match turn {
        Turn::Final => Ok(Ending::Halted(whole_output(alloc, tape, rest)?)),
        Turn::Stuck { state, symbol } => Ok(Ending::Stuck { state, symbol }),
        Turn::Moved => Ok(Ending::Running),
        Turn::Left { .. } => unreachable!(),
    }
}

// Makes at most `steps` steps, and then one more if all are made. Returns how many were made before the last turn, and
// that turn.
fn run(machine: &Machine, state: &mut u32, tape: &mut Tape, steps: u32) -> (u32, Turn)
    ensures { IsRun machine.now steps state.old tape.old result.0 result.1 state.new tape.new }
{
    for made in 0..steps {
        match machine.step(state, tape) {
            Turn::Moved => {}
            turn => return (made, turn),
        }
    }
    (steps, machine.step(state, tape))
}

// The output, with the rest of the word beyond the tape if it reaches so far.
fn whole_output(alloc: Global, tape: &Tape, rest: &[u32]) -> Result<Vec<u32>, NoMemory>
    ensures { IfOk result (λ y. IsWholeOutput tape.now rest.now y.items) }
{
    let mut output = output_of(alloc, tape)?;
    let end = tape.head() + output.len() as i64;
    if end == i64::from(Tape::GREATEST_SIDE) {
        output.extend_from_slice(rest)?;
    }
    Ok(output)
}

// The longest word without blanks directly right of the head.
fn output_of(alloc: Global, tape: &Tape) -> Result<Vec<u32>, NoMemory>
    ensures output { IfOk result (λ y. IsOutput tape.now.tape y.items) }
    ensures inside { IfOk result (λ y.
        (tape.now.tape.head +ℤ pos (length y.items)) ≤ℤ pos tape.now.right) }
{
    let mut output = Vec::new(alloc);
    let mut position = tape.head() + 1;
    while let Some(symbol) = letter_at(tape, position) {
        output.push(symbol)?;
        position += 1;
    }
    Ok(output)
}

/// The symbol at a position of a tape; `None` exactly if it is the blank, or the position is outside the window. The
/// contract also states what holds of every tape afterwards.
pub fn letter_at(tape: &Tape, position: i64) -> Option<u32>
    ensures letter { MatchOption result (cell tape.now.tape position ≡ 0) (IsLetterAt tape.now position) }
    ensures valid { IsWindowed tape.now }
{
    match tape.symbol(position) {
        Some(0) | None => None,
        Some(symbol) => Some(symbol),
    }
}
