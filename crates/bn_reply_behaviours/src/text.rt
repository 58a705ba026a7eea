//! The texts of the entries of a behaviour.

ghost use Rattle.std.specs.Prelude.{◌≡◌, ◌<◌, ◌++◌, ◌∷◌, [], IfOk, OnOk, decimal, map};
ghost use Rattle.bn_csv.specs.Lines.{lines_of};
ghost use Rattle.bn_netlist_laws.specs.Sentences.{line_text};
ghost use Rattle.bn_rsm.specs.Entry.{entries_by};
ghost use Rattle.bn_behaviour.specs.Laws.{machine_move};
ghost use Rattle.bn_reply_behaviours.specs.CrossingsReply.{crossing_line, crossing_with, crossings_text};
ghost use Rattle.bn_reply_behaviours.specs.Replying.{AreNamedBy, IsNamedBy};

use bn_base::push_u64;
use bn_behaviour::{CountedMove, Ports};
use bn_circuits::Line;
use bn_element::{EAST, NORTH, SOUTH};
use bn_lists::NoMemory;
use bn_rsm::{RsmMove, write_moves};
use std::alloc::{AllocError, Global};

// The move of the sequential machine.
fn machine_move(step: &CountedMove) -> RsmMove
    ensures { result ≡ machine_move step.now }
{
    RsmMove {
        state: step.state,
        line: step.line,
        next: step.next,
        out: step.out,
    }
}

// The moves of the sequential machine, in the same order.
fn machine_moves(alloc: Global, moves: &[CountedMove]) -> Result<Vec<RsmMove>, AllocError>
    ensures { IfOk result (λ v. v.items ≡ map machine_move moves.now) }
{
    moves.iter().map(|step| machine_move(step)).collect(alloc)
}

/// The entries as a table of a sequential machine.
pub(crate) fn table_text(alloc: Global, moves: &[CountedMove]) -> Result<Vec<u8>, NoMemory>
    ensures { IfOk result (λ text. text.items ≡ lines_of (entries_by (map machine_move moves.now))) }
{
    let steps = machine_moves(alloc, moves)?;
    write_moves(alloc, steps.as_slice())
}

/// The entries as a line each.
pub(crate) fn crossings_text(
    alloc: Global,
    ports: &Ports,
    moves: &[CountedMove],
) -> Result<Vec<u8>, NoMemory>
    requires { AreNamedBy ports.now moves.now }
    ensures { IfOk result (λ text. text.items ≡ crossings_text ports.now moves.now) }
{
    let mut text = Vec::new(alloc);
    for step in moves {
        push_crossing(&mut text, ports, *step)?;
    }
    Ok(text)
}

// The line of one entry.
fn push_crossing(text: &mut Vec<u8>, ports: &Ports, step: CountedMove) -> Result<(), NoMemory>
    requires { IsNamedBy ports.now step }
    ensures { OnOk result (text.new.items ≡ text.old.items ++ crossing_line ports.now step) }
{
    let input = ports.inputs.get(step.line);
    let output = ports.outputs.get(step.out);
    push_line(text, step, input, output)
}

// The line of one entry with these ports.
fn push_line(
    text: &mut Vec<u8>,
    step: CountedMove,
    input: Line,
    output: Line,
) -> Result<(), NoMemory>
    requires input { input.line < 4 }
    requires output { output.line < 4 }
    ensures { OnOk result (text.new.items ≡ text.old.items ++ crossing_with step input output) }
{
    push_number(text, b"state ", u64::from(step.state) + 1)?;
    push_port(text, b" in ", input)?;
    push_number(text, b" next ", u64::from(step.next) + 1)?;
    push_port(text, b" out ", output)?;
    push_number(text, b" steps ", step.steps)?;
    text.extend_from_slice(b"\n")?;
    Ok(())
}

// A word and a number.
fn push_number(text: &mut Vec<u8>, word: &[u8], number: u64) -> Result<(), NoMemory>
    ensures { OnOk result (text.new.items ≡ text.old.items ++ (word.now ++ decimal number)) }
{
    text.extend_from_slice(word)?;
    push_u64(text, number)
}

// A word and a port of an element.
fn push_port(text: &mut Vec<u8>, word: &[u8], port: Line) -> Result<(), NoMemory>
    requires { port.line < 4 }
    ensures { OnOk result (text.new.items ≡ text.old.items ++ (word.now ++ line_text port)) }
{
    text.extend_from_slice(word)?;
    push_u64(text, u64::from(port.element))?;
    text.extend_from_slice(match port.line {
        NORTH => b".n",
        EAST => b".e",
        SOUTH => b".s",
        _ => b".w",
    })?;
    Ok(())
}
