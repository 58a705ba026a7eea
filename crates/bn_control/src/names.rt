//! The names of a control's states in their order.
ghost use Rattle.std.specs.Prelude.{◌≡◌, ℕ, ◌++◌, ◌<◌, ◌^◌, List, map, length, true, false, IfOk, OnOk};
ghost use Rattle.bn_quad.specs.Quadruples.{Rule};
ghost use Rattle.bn_quad.specs.Kept.{quad_of};
ghost use Rattle.bn_network.specs.Controls.{IsNumbering};
ghost use Rattle.bn_control.specs.Shown.{IsLeftBy};
ghost use Rattle.bn_control.specs.Names.{state_of};
ghost use Rattle.bn_control.specs.Listed.{names_from, AreOpen};

use crate::command::{Command, commands_of};
use crate::name::{StateName, Symbols};
use crate::order::in_order;
use bn_lists::NoMemory;
use bn_quad::{Quad, QuadMachine};
use std::alloc::{AllocError, Global};

/// The names of the states of the control of a machine of quadruples, each at its state's number, counted from 0.
/// `Err`: out of memory.
pub fn state_names(alloc: Global, machine: &QuadMachine) -> Result<Vec<StateName>, NoMemory>
    ensures { IfOk result (λ v. IsNumbering machine.now (map state_of v.items)) }
{
    let mut names = Vec::new(alloc);
    names.push(StateName::Begin)?;
    names.push(StateName::End)?;
    push_open(&mut names, machine)?;
    push_quads(alloc, &mut names, machine.quads())?;
    let ordered = in_order(names)?;
    Ok(ordered)
}

// The names of the open states, which wait for tape 1 and have no move: one for each state of the machine that is not
// final and that no quadruple leaves.
fn push_open(names: &mut Vec<StateName>, machine: &QuadMachine) -> Result<(), AllocError>
    ensures { OnOk result ((opened : List StateName) × AreOpen machine.now machine.now.states opened
        × (names.new.items ≡ names.old.items ++ opened)) }
{
    for state in 0..machine.states() {
        if state != machine.final_state() && !is_left(machine.quads(), state) {
            names.push(StateName::Reads {
                state,
                count: 0,
                before: Symbols::Empty,
            })?;
        }
    }
    Ok(())
}

/// Whether a quadruple leaves this state.
pub(crate) fn is_left(quads: &[Quad], state: u32) -> bool
    ensures yes { result ≡ true → IsLeftBy quads.now state }
    ensures no { result ≡ false → IsLeftBy quads.now state → ⊥ }
{
    for quad in quads {
        if quad.state == state {
            return true;
        }
    }
    false
}

// The names of the states that the quadruples show.
fn push_quads(alloc: Global, names: &mut Vec<StateName>, quads: &[Quad]) -> Result<(), AllocError>
    requires { length quads.now < 2 ^ 32 }
    ensures { (rs : List (Rule ℕ)) → quads.now ≡ map quad_of rs
        → OnOk result (names.new.items ≡ names.old.items ++ names_from 1 rs) }
{
    for (index, quad) in quads.iter().enumerate() {
        let commands = commands_of(alloc, index as u32 + 1, quad)?;
        push_states(names, commands.as_slice())?;
    }
    Ok(())
}

// The names of the states that wait for the replies to these commands.
fn push_states(names: &mut Vec<StateName>, commands: &[Command]) -> Result<(), AllocError>
    ensures { OnOk result (names.new.items ≡ names.old.items ++ map (λ c. c.sending.state) commands.now) }
{
    for command in commands {
        names.push(command.sending.state)?;
    }
    Ok(())
}
