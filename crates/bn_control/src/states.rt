//! The states of a control in their order, and their numbers.
ghost use Rattle.std.specs.Prelude.{◌≡◌, ◌+◌, ◌^◌, ◌<◌, ◌≤◌, ◌++◌, map, length, Some, slice_get, IfOk, OnOk};
ghost use Rattle.bn_quad.specs.Quadruples.{Quadruples, IsQuadMachine};
ghost use Rattle.bn_quad.specs.Calls.{IsUniformMachine};
ghost use Rattle.bn_control.specs.Names.{state_of};
ghost use Rattle.bn_control.specs.Entries.{AreEntries};
ghost use Rattle.bn_control.specs.Named.{AreMoves};
ghost use Rattle.bn_control.specs.Ordered.{AreOrdered, HasNumber};

use crate::line::Sending;
use crate::name::StateName;
use crate::named::NamedMove;
use crate::order::in_order;
use std::alloc::{AllocError, Global};

/// The states of the control of a machine with these first commands and moves, each at its number.
pub(crate) fn states_of(
    alloc: Global,
    entries: &[Sending],
    moves: &[NamedMove],
) -> Result<Vec<StateName>, AllocError>
    ensures ordered { (m : Quadruples) → IsUniformMachine m → IsQuadMachine m → AreEntries m entries.now
        → AreMoves m moves.now
        → IfOk result (λ v. AreOrdered m v.items) }
    ensures few { IfOk result (λ v. length v.items ≤ 1 + length entries.now + length moves.now) }
{
    let mut states = Vec::new(alloc);
    states.push(StateName::End)?;
    push_awaiting(&mut states, entries)?;
    push_moving(&mut states, moves)?;
    let ordered = in_order(states)?;
    Ok(ordered)
}

// The states that wait for the replies to first commands.
fn push_awaiting(states: &mut Vec<StateName>, entries: &[Sending]) -> Result<(), AllocError>
    ensures { OnOk result (states.new.items ≡ states.old.items ++ map (λ s. s.state) entries.now) }
{
    for entry in entries {
        states.push(entry.state)?;
    }
    Ok(())
}

// The states in which the control has moves.
fn push_moving(states: &mut Vec<StateName>, moves: &[NamedMove]) -> Result<(), AllocError>
    ensures { OnOk result (states.new.items ≡ states.old.items ++ map (λ x. x.state) moves.now) }
{
    for step in moves {
        states.push(step.state)?;
    }
    Ok(())
}

/// The number of a state, counted from 0.
pub(crate) fn number_of(states: &[StateName], state: StateName) -> u32
    requires known { HasNumber states.now state }
    requires few { length states.now < 2 ^ 32 }
    ensures { slice_get (map state_of states.now) result ≡ Some (state_of state) }
{
    match states.binary_search(&state) {
        Ok(number) => number as u32,
        Err(_) => unreachable!(),
    }
}
