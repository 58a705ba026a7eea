//! The view of a circuit.

ghost use Rattle.std.specs.Prelude.{◌≡◌, ℕ, ◌<◌, pos, List, Some, IfOk};
ghost use Rattle.bn_circuits.specs.Stepping.{run};
ghost use Rattle.bn_circuits.specs.RotaryNets.{rotary_circuit};
ghost use Rattle.bn_machine.specs.Machine.{Program};
ghost use Rattle.bn_machine.specs.Outcome.{Limits};
ghost use Rattle.bn_quad.specs.Quadruples.{initial_of};
ghost use Rattle.bn_boards.specs.Flats.{Flat};
ghost use Rattle.bn_board.specs.Flattened.{IsBoardKept, IsSameBoard, origin};
ghost use Rattle.bn_view.specs.Shown.{IsShown};
ghost use Rattle.bn_view.specs.Viewed.{Finds, IsBoardFor, IsBoardOf, IsBoardView, IsLaidOut, IsLastMoment, IsView};
ghost use Rattle.bn_view.specs.Viewed.{IsViewOf, ShowsMachine};

use crate::layers::{BoardLayers, Layers};
use crate::module_at::module_at;
use bn_bennett::Translated;
use bn_board::{Board, Spelled, SpelledTape};
use bn_lists::NoMemory;
use bn_quad::QuadMachine;
use std::alloc::Global;

// The last moment of a circuit: its state, and what the cells showed then.
#[derive(Drop)]
pub(crate) struct LastMoment {
    pub(crate) state: u32,
    pub(crate) tapes: Spelled,
}

/// Every layer of a circuit's configuration, and of the last moment that it reached. The circuit is the one of the
/// translation's machine, in any configuration that it can reach. It does not change: the last moment is found on a
/// copy that is stepped back, so no log is kept. The contract also states what holds of every circuit afterwards.
pub fn view(alloc: Global, board: &Board, translated: &Translated) -> Result<Layers, NoMemory>
    requires { IsBoardOf translated.now board.now }
    ensures place { IfOk result (λ v. v.place ≡ board.now.config.place) }
    ensures steps { IfOk result (λ v. v.steps ≡ board.now.config.steps) }
    ensures from_start { IfOk result (λ v. v.place
        ≡ (run (rotary_circuit board.now.net) (origin board.now) v.steps).place) }
    ensures known { IfOk result (λ v. v.state < translated.now.machine.states) }
    ensures view { IfOk result (λ v. (p : Program) (word : List ℕ) (l : Limits) (f : Flat)
        → IsBoardFor p word l f translated.now board.now → IsViewOf f board.now.config v) }
    ensures machine { IfOk result (λ v. (p : Program) (word : List ℕ) (l : Limits) (f : Flat)
        → IsBoardFor p word l f translated.now board.now → ShowsMachine p word l translated.now v) }
    ensures kept { IsBoardKept board.now }
{
    layers_of(alloc, board, translated)
}

// The layers, with the last moment that the circuit's layout finds.
fn layers_of(alloc: Global, board: &Board, translated: &Translated) -> Result<Layers, NoMemory>
    requires { IsBoardOf translated.now board.now }
    ensures known { IfOk result (λ v. v.state < translated.now.machine.states) }
    ensures view { IfOk result (IsView translated.now board.now) }
    ensures kept { IsBoardKept board.now }
{
    let machine = translated.machine().machine();
    let BoardLayers {
        place,
        steps,
        module,
        state,
        tapes,
    } = view_board(alloc, board, machine)?;
    Ok(Layers {
        place,
        steps,
        exit: board.exit_of(),
        module,
        state,
        stage: translated.stage_of(state),
        machine: translated.machine_state_of(state),
        machine_step: head_of(&tapes.two),
        tapes,
    })
}

/// What the circuit of a machine of quadruples shows, in any configuration that it can reach: the place of the signal,
/// and the last moment reached, or its start if there is none. The circuit does not change: the last moment is found on
/// a copy that is stepped back, so no log is kept. The contract also states what holds of every circuit afterwards.
pub fn view_board(
    alloc: Global,
    board: &Board,
    machine: &QuadMachine,
) -> Result<BoardLayers, NoMemory>
    requires { IsLaidOut machine.now board.now.layout }
    ensures known { IfOk result (λ v. v.state < machine.now.states) }
    ensures view { IfOk result (IsBoardView board.now (initial_of machine.now.rules)) }
    ensures kept { IsBoardKept board.now }
{
    let LastMoment { state, tapes } = last_moment(alloc, board, machine.initial_state())?;
    Ok(BoardLayers {
        place: board.place(),
        steps: board.steps(),
        module: module_at(board, machine),
        state,
        tapes,
    })
}

// The last moment that a circuit reached, found on a copy; or its start if there is none, with the given state.
fn last_moment(alloc: Global, board: &Board, initial: u32) -> Result<LastMoment, NoMemory>
    ensures moment { IfOk result (IsLastMoment board.now initial) }
    ensures kept { IsBoardKept board.now }
{
    let mut last = board.copy(alloc)?;
    let state = go_back(&mut last, initial);
    let tapes = last.cells_of(alloc)?;
    Ok(LastMoment { state, tapes })
}

// Steps back to the last moment and returns its state; or to the start if there is none, and returns the given state.
fn go_back(board: &mut Board, initial: u32) -> u32
    ensures same { IsSameBoard board.old board.new }
    ensures kept { IsBoardKept board.new }
    ensures shown { IsShown (Finds board.old.layout (rotary_circuit board.old.net) (origin board.old)) initial
        board.old.config.steps board.new.config.steps result }
{
    'steps: loop {
        if let Some(state) = board.moment() {
            return state;
        }
        if !board.back_step() {
            return initial;
        }
    }
}

// The position of the head on a tape, where the head is at cell 0 or to the right of it.
fn head_of(tape: &SpelledTape) -> u64
    requires { (i : ℕ) × (tape.now.head ≡ Some (pos i)) }
    ensures { tape.now.head ≡ Some (pos result) }
{
    match tape.head {
        Some(position) => position.unsigned_abs(),
        None => unreachable!(),
    }
}
