//! The control of a machine of quadruples.
ghost use Rattle.std.specs.Prelude.{◌≡◌, ℕ, List, IfOk, OnOk};
ghost use Rattle.bn_quad.specs.Quadruples.{IsQuadMachine};
ghost use Rattle.bn_quad.specs.Calls.{IsUniformMachine};
ghost use Rattle.bn_network.specs.Controls.{ControlState};
ghost use Rattle.bn_control.specs.Controlled.{IsControlOf, IsWithinLimits};
ghost use Rattle.bn_control.specs.Made.{IsDraft};

use crate::draft::Draft;
use crate::entries::entries_of;
use crate::finite::Control;
use crate::named::named_moves;
use crate::states::states_of;
use bn_lists::NoMemory;
use bn_quad::{QuadMachine, Uniform};
use std::alloc::{AllocError, Global};

/// The most quadruples that a machine with a control may have.
pub const MOST_QUADRUPLES: u32 = 20_000;

/// The most states that such a machine may have.
pub const MOST_STATES: u32 = 40_000;

/// A law: the most quadruples are 20,000, and the most states 40,000.
pub fn most_quadruples_are_stated()
    ensures quadruples { MOST_QUADRUPLES ≡ 20000 }
    ensures states { MOST_STATES ≡ 40000 }
{}

/// The finite control of a uniform machine of quadruples, with its states in their order and its ports tape by tape.
/// `Err`: out of memory. The contract also states what holds for the machine.
pub fn control(alloc: Global, machine: &Uniform) -> Result<Control, NoMemory>
    requires { IsWithinLimits machine.now }
    ensures made { IfOk result (λ c. (names : List ControlState) × IsControlOf machine.now names c) }
    ensures valid { OnOk result (IsQuadMachine machine.now) }
{
    let machine = machine.machine();
    let draft = draft_of(alloc, machine)?;
    let rsm = draft.rsm(alloc)?;
    let firsts = draft.firsts(alloc)?;
    let awaited = draft.awaited(alloc)?;
    Ok(Control::new(rsm, draft.symbols, firsts, awaited))
}

// The data from which the control is built.
fn draft_of(alloc: Global, machine: &QuadMachine) -> Result<Draft, AllocError>
    requires limits { IsWithinLimits machine.now }
    requires uniform { IsUniformMachine machine.now }
    ensures { IfOk result (IsDraft machine.now) }
{
    let entries = entries_of(alloc, machine)?;
    let moves = named_moves(alloc, machine, entries.as_slice())?;
    let states = states_of(alloc, entries.as_slice(), moves.as_slice())?;
    Ok(Draft {
        symbols: symbols_of(machine),
        entries,
        moves,
        states,
    })
}

// The number of symbols of each tape, tape 1 first.
fn symbols_of(machine: &QuadMachine) -> [u32; 3]
    requires { IsQuadMachine machine.now }
    ensures { result ≡ machine.now.symbols }
{
    [machine.symbols(1), machine.symbols(2), machine.symbols(3)]
}
