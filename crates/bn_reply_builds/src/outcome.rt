//! Where the signal of a circuit is.

ghost use Rattle.std.specs.Prelude.{◌≡◌, ◌≢◌, ℕ, List, IfOk};
ghost use Rattle.bn_circuits.specs.declared.line.Line.{Line as Entered};
ghost use Rattle.bn_circuits.specs.declared.place.Place.{Place};
ghost use Rattle.bn_circuits.specs.declared.place.Place.TheVariants.{Enter, Left};
ghost use Rattle.bn_quad.specs.Quadruples.{Configuration};
ghost use Rattle.bn_bennett_laws.specs.Steps.{Exit as ByExit};
ghost use Rattle.bn_network.specs.Starts.{FitsWindow};
ghost use Rattle.bn_boards.specs.Layouts.{IsExit, spelled_by};
ghost use Rattle.bn_boards.specs.Builds.{Build, IsBuild};
ghost use Rattle.bn_boards.specs.Exits.{BoardLeaves};
ghost use Rattle.bn_reply_builds.specs.Outcomes.{outcome_by, outcome_status, stop_at};
ghost use Rattle.bn_reply_builds.specs.Stopping.{HasFewSymbols, IsLeftAtRead};

use crate::awaited::{answer_at, control_rows, read_awaited};
use crate::stop::stop_of;
use bn_board::{Board, Exit, Spelled};
use bn_circuits::{Line, Place};
use bn_control::state_names;
use bn_lists::NoMemory;
use bn_machine::Side;
use bn_quad::Uniform;
use bn_reply::Status;
use std::alloc::Global;

/// At which configuration a machine is stuck: its state, and the symbols that the three heads scan, all counted from 0.
#[derive(Clone, Copy)]
pub struct Stop {
    /// The state of the machine of quadruples.
    pub state: u32,
    /// The symbol under the head of tape 1.
    pub one: u32,
    /// The symbol under the head of tape 2.
    pub two: u32,
    /// The symbol under the head of tape 3.
    pub three: u32,
}

/// Where the signal is.
#[derive(Clone, Copy)]
pub enum Outcome {
    /// The signal is inside, about to enter this port.
    Inside(Line),
    /// The signal has left by the end port: the machine has halted inside its window.
    End,
    /// The signal has left where the machine is stuck.
    Stuck(Stop),
    /// The signal has left by the end of a row of cells: a shift would leave the tape's window.
    Window {
        /// The tape, counted from 1.
        tape: u32,
        /// The side at which it left.
        side: Side,
    },
    /// The signal has left by a loose port that has no name.
    Unnamed,
}

impl Outcome {
    /// The status of a drive with this outcome.
    pub fn status(self) -> Status
        ensures { result ≡ outcome_status self }
    {
        match self {
            Outcome::Inside(_) => Status::Inside,
            Outcome::End | Outcome::Unnamed => Status::Done,
            Outcome::Stuck(_) => Status::Stuck,
            Outcome::Window { .. } => Status::Window,
        }
    }
}

/// Where the signal of a circuit of this machine is, whose cells show this.
pub fn outcome_of(
    alloc: Global,
    machine: &Uniform,
    board: &Board,
    shown: &Spelled,
) -> Result<Outcome, NoMemory>
    requires few { HasFewSymbols machine.now }
    requires shown { shown.now ≡ spelled_by board.now.layout board.now.config.states }
    ensures inside { IfOk result (λ o. (e l : ℕ) → board.now.config.place ≡ Enter e l
        → o ≡ Outcome.Inside (record { element = e; line = l })) }
    ensures left { IfOk result (λ o. (f : Build) (d : Configuration ℕ) (e : ByExit) → IsBuild f
        → f.machine ≡ machine.now → f.layout ≡ board.now.layout → FitsWindow f.machine f.limits d
        → BoardLeaves f board.now.config.place board.now.config.states d e → o ≡ outcome_by d e) }
    ensures entered { IfOk result (λ o. (at : Entered) → o ≡ Outcome.Inside at
        → board.now.config.place ≡ Enter at.element at.line) }
{
    match board.place() {
        Place::Enter { element, line } => Ok(Outcome::Inside(Line { element, line })),
        Place::Left { element, .. } => {
            outcome_left(alloc, machine, element, board.exit_of(), shown)
        }
    }
}

// The same for a circuit whose signal has left by a port of this element, for which the layout returns this exit.
fn outcome_left(
    alloc: Global,
    machine: &Uniform,
    element: u32,
    exit: Exit,
    shown: &Spelled,
) -> Result<Outcome, NoMemory>
    requires few { HasFewSymbols machine.now }
    ensures left { IfOk result (λ o. (f : Build) (p : Place) (states : List ℕ) (line : ℕ) (d : Configuration ℕ)
        (e : ByExit) → IsBuild f → f.machine ≡ machine.now → p ≡ Left element line → IsExit f.layout p exit
        → shown.now ≡ spelled_by f.layout states → FitsWindow f.machine f.limits d → BoardLeaves f p states d e
        → o ≡ outcome_by d e) }
    ensures out { IfOk result (λ o. (at : Entered) → o ≢ Outcome.Inside at) }
{
    match exit {
        Exit::End => Ok(Outcome::End),
        Exit::Window { tape, side } => Ok(Outcome::Window { tape, side }),
        _ => stuck_by(alloc, machine, element, shown),
    }
}

// The same for a circuit whose signal has left by a loose port of the control.
fn stuck_by(
    alloc: Global,
    machine: &Uniform,
    element: u32,
    shown: &Spelled,
) -> Result<Outcome, NoMemory>
    requires few { HasFewSymbols machine.now }
    ensures stuck { IfOk result (λ o. (f : Build) (d : Configuration ℕ) → IsBuild f → f.machine ≡ machine.now
        → IsLeftAtRead f element shown.now d → o ≡ Outcome.Stuck (stop_at d)) }
    ensures out { IfOk result (λ o. (at : Entered) → o ≢ Outcome.Inside at) }
{
    let names = state_names(alloc, machine.machine())?;
    let rows = control_rows(machine.machine());
    match read_awaited(names.as_slice(), element / rows) {
        Some(read) => {
            let answer = answer_at(machine.machine(), element % rows);
            Ok(Outcome::Stuck(stop_of(machine, read, answer, shown)))
        }
        None => Ok(Outcome::Unnamed),
    }
}
