//! The moves of a control by names.
ghost use Rattle.std.specs.Prelude.{◌≡◌, ◌+◌, ◌*◌, ◌++◌, ◌≤◌, length, IfOk, OnOk};
ghost use Rattle.bn_quad.specs.Calls.{IsUniformMachine};
ghost use Rattle.bn_control.specs.Commands.{moves_by};
ghost use Rattle.bn_control.specs.Entries.{AreEntries};
ghost use Rattle.bn_control.specs.Named.{AreMoves};

use crate::command::{Command, commands_of};
use crate::line::{Line, Sending};
use crate::name::StateName;
use bn_quad::QuadMachine;
use std::alloc::{AllocError, Global};

/// A move of a control: the state, the input port, and what is sent.
#[derive(Clone, Copy, PartialEq, Eq, Debug)]
pub(crate) struct NamedMove {
    /// The state in which the move is made.
    pub(crate) state: StateName,
    /// The input port at which the signal arrives.
    pub(crate) line: Line,
    /// What is sent.
    pub(crate) to: Sending,
}

/// The moves of the control of a machine with these first commands, possibly with repetitions.
pub(crate) fn named_moves(
    alloc: Global,
    machine: &QuadMachine,
    entries: &[Sending],
) -> Result<Vec<NamedMove>, AllocError>
    requires uniform { IsUniformMachine machine.now }
    requires entries { AreEntries machine.now entries.now }
    ensures moves { IfOk result (λ v. AreMoves machine.now v.items) }
    ensures few { IfOk result (λ v. length v.items ≤ 1 + 9 * length machine.now.rules) }
{
    let quads = machine.quads();
    let mut moves = Vec::new(alloc);
    moves.push(NamedMove {
        state: StateName::Begin,
        line: Line::Outside,
        to: entries[machine.initial_state() as usize],
    })?;
    for (index, quad) in quads.iter().enumerate() {
        let commands = commands_of(alloc, index as u32 + 1, quad)?;
        push_moves(&mut moves, commands.as_slice(), entries[quad.next as usize])?;
    }
    Ok(moves)
}

// The moves from each command of a quadruple to the next, and from the last one to `last`.
fn push_moves(
    moves: &mut Vec<NamedMove>,
    commands: &[Command],
    last: Sending,
) -> Result<(), AllocError>
    ensures { OnOk result (moves.new.items ≡ moves.old.items ++ moves_by last commands.now) }
{
    for (index, command) in commands.iter().enumerate() {
        let to = match commands.get(index + 1) {
            Some(next) => next.sending,
            None => last,
        };
        moves.push(NamedMove {
            state: command.sending.state,
            line: command.answer,
            to,
        })?;
    }
    Ok(())
}
