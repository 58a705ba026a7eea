//! The first command of each state of a machine.
ghost use Rattle.std.specs.Prelude.{◌≡◌, map, length, IfOk};
ghost use Rattle.std.specs.List.{range_with_len};
ghost use Rattle.bn_quad.specs.Calls.{IsUniformMachine};
ghost use Rattle.bn_quad.specs.Quadruples.{IsQuadMachine};
ghost use Rattle.bn_control.specs.Entries.{AreEntries, waiting};

use crate::command::commands_of;
use crate::line::{Line, Sending};
use crate::name::{StateName, Symbols};
use bn_network::CellLine;
use bn_quad::QuadMachine;
use std::alloc::{AllocError, Global};

/// The first command in each state of the machine.
pub(crate) fn entries_of(alloc: Global, machine: &QuadMachine) -> Result<Vec<Sending>, AllocError>
    requires { IsUniformMachine machine.now }
    ensures entries { IfOk result (λ v. AreEntries machine.now v.items) }
    ensures valid { IfOk result (λ v. IsQuadMachine machine.now) }
{
    let mut entries = waiting_entries(alloc, machine.states(), machine.final_state())?;
    for (index, quad) in machine.quads().iter().enumerate() {
        let commands = commands_of(alloc, index as u32 + 1, quad)?;
        entries[quad.state as usize] = commands[0].sending;
    }
    Ok(entries)
}

// The first command in each state if no quadruple left the state.
fn waiting_entries(alloc: Global, states: u32, final_state: u32) -> Result<Vec<Sending>, AllocError>
    ensures { IfOk result (λ v. v.items ≡ map (waiting final_state) (range_with_len 0 states)) }
{
    (0..states)
        .map(|state| waiting(final_state, state))
        .collect(alloc)
}

// In the final state the signal leaves; in another state tape 1 is read.
fn waiting(final_state: u32, state: u32) -> Sending
    ensures { result ≡ waiting final_state state }
{
    if state == final_state {
        Sending {
            state: StateName::End,
            line: Line::Outside,
        }
    } else {
        Sending {
            state: StateName::Reads {
                state,
                count: 0,
                before: Symbols::Empty,
            },
            line: Line::Tape(1, CellLine::Read),
        }
    }
}
