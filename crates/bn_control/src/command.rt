//! The commands of a quadruple, in the order in which a control sends them.
ghost use Rattle.std.specs.Prelude.{◌≡◌, ℕ, ◌++◌, ◌∷◌, [], Option, IfOk, OnOk};
ghost use Rattle.bn_quad.specs.Quadruples.{Rule};
ghost use Rattle.bn_quad.specs.Kept.{quad_of};
ghost use Rattle.bn_control.specs.Commands.{commands_by, read_commands, shift_commands, write_commands, read_command};
ghost use Rattle.bn_control.specs.Commands.{shift_command, write_command};

use crate::line::{Line, Sending};
use crate::name::{StateName, Symbols};
use crate::shown::{symbols, written};
use bn_machine::Shift;
use bn_network::CellLine;
use bn_quad::{Act, Quad};
use std::alloc::{AllocError, Global};
use std::cmp::Reverse;

/// A command of a quadruple: what is sent, and the input port of the reply.
#[derive(Clone, Copy, PartialEq, Eq, Debug)]
pub(crate) struct Command {
    /// What is sent.
    pub(crate) sending: Sending,
    /// The input port at which the reply arrives.
    pub(crate) answer: Line,
}

/// The commands of the quadruple with this number, counted from 1: its reads by rising tape, its shifts by rising
/// tape, its writes by falling tape.
pub(crate) fn commands_of(
    alloc: Global,
    number: u32,
    quad: &Quad,
) -> Result<Vec<Command>, AllocError>
    ensures { (r : Rule ℕ) → quad.now ≡ quad_of r → IfOk result (λ v. v.items ≡ commands_by number r) }
{
    let mut commands = Vec::new(alloc);
    push_reads(&mut commands, quad)?;
    push_shifts(&mut commands, number, quad)?;
    push_writes(&mut commands, quad)?;
    Ok(commands)
}

// The reads, by rising tape.
fn push_reads(commands: &mut Vec<Command>, quad: &Quad) -> Result<(), AllocError>
    ensures { (r : Rule ℕ) → quad.now ≡ quad_of r
        → OnOk result (commands.new.items ≡ commands.old.items ++ read_commands r) }
{
    let [one, two, three] = quad.read;
    push_read(commands, quad.state, symbols(None, None), 1, one)?;
    push_read(commands, quad.state, symbols(one, None), 2, two)?;
    push_read(commands, quad.state, symbols(one, two), 3, three)
}

// The shifts, by rising tape.
fn push_shifts(commands: &mut Vec<Command>, number: u32, quad: &Quad) -> Result<(), AllocError>
    ensures { (r : Rule ℕ) → quad.now ≡ quad_of r
        → OnOk result (commands.new.items ≡ commands.old.items ++ shift_commands number r) }
{
    let [one, two, three] = quad.act;
    push_shift(commands, number, 1, one)?;
    push_shift(commands, number, 2, two)?;
    push_shift(commands, number, 3, three)
}

// The writes, by falling tape.
fn push_writes(commands: &mut Vec<Command>, quad: &Quad) -> Result<(), AllocError>
    ensures { (r : Rule ℕ) → quad.now ≡ quad_of r
        → OnOk result (commands.new.items ≡ commands.old.items ++ write_commands r) }
{
    let [one, two, three] = quad.act;
    let rest = symbols(written(two), written(one));
    push_write(commands, quad.next, rest, 3, three)?;
    push_write(commands, quad.next, symbols(written(one), None), 2, two)?;
    push_write(commands, quad.next, symbols(None, None), 1, one)
}

// The read of a tape, if it is read, after these symbols.
fn push_read(
    commands: &mut Vec<Command>,
    state: u32,
    before: Symbols,
    tape: u32,
    read: Option<u32>,
) -> Result<(), AllocError>
    ensures { OnOk result (commands.new.items ≡ commands.old.items ++ read_command state before tape read) }
{
    if let Some(symbol) = read {
        commands.push(Command {
            sending: Sending {
                state: StateName::Reads {
                    state,
                    count: before.len(),
                    before,
                },
                line: Line::Tape(tape, CellLine::Read),
            },
            answer: Line::Tape(tape, CellLine::Answer(symbol)),
        })?;
    }
    Ok(())
}

// The shift of a tape, if it is shifted other than by 0.
fn push_shift(
    commands: &mut Vec<Command>,
    quadruple: u32,
    tape: u32,
    act: Act,
) -> Result<(), AllocError>
    ensures { OnOk result (commands.new.items ≡ commands.old.items ++ shift_command quadruple tape act) }
{
    let (command, answer) = match act {
        Act::Shift(Shift::Left) => (CellLine::ShiftLeft, CellLine::DoneLeft),
        Act::Shift(Shift::Right) => (CellLine::ShiftRight, CellLine::DoneRight),
        Act::Shift(Shift::Stay) | Act::Write(_) => return Ok(()),
    };
    commands.push(Command {
        sending: Sending {
            state: StateName::Shifts { quadruple, tape },
            line: Line::Tape(tape, command),
        },
        answer: Line::Tape(tape, answer),
    })?;
    Ok(())
}

// The write on a tape, if it is written, with these symbols still to be written.
fn push_write(
    commands: &mut Vec<Command>,
    state: u32,
    rest: Symbols,
    tape: u32,
    act: Act,
) -> Result<(), AllocError>
    ensures { OnOk result (commands.new.items ≡ commands.old.items ++ write_command state rest tape act) }
{
    if let Act::Write(symbol) = act {
        commands.push(Command {
            sending: Sending {
                state: StateName::Writes {
                    state,
                    tape: Reverse(tape),
                    rest,
                },
                line: Line::Tape(tape, CellLine::Write(symbol)),
            },
            answer: Line::Tape(tape, CellLine::DoneWrite),
        })?;
    }
    Ok(())
}
