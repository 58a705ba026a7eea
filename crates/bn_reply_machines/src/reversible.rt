//! The command `reversible`.

ghost use Rattle.std.specs.Prelude.{◌≡◌, ◌≢◌, [], IfOk};
ghost use Rattle.bn_quad.specs.declared.clash.Clash.TheVariants.{Domain, Range};
ghost use Rattle.bn_qtable.specs.declared.refusal.QuadTableRefusal.TheVariants as faults;
ghost use Rattle.bn_reply_machines.specs.ReversibleReply.{IsVerdict, ReversibleReplies};
ghost use Rattle.bn_reply_machines.specs.ReversibleReply.{TellsVerdicts};
ghost use Rattle.bn_reply_machines.specs.ReversibleReply.{quad_fault_line, verdict_line};

use bn_lists::NoMemory;
use bn_qtable::{QuadTableRefusal, read_quads};
use bn_quad::QuadMachine;
use bn_reply::{Reply, Status, empty_text, field_text, record_text};
use std::alloc::Global;

/// The answer of `reversible` to some bytes: a refusal if they are no table of quadruples, or whether these are
/// deterministic, and whether they are reversible.
pub fn reply_reversible(alloc: Global, bytes: &[u8]) -> Result<Reply, NoMemory>
    ensures { IfOk result (λ r. ReversibleReplies bytes.now r.status r.text.items []) }
{
    match read_quads(alloc, bytes) {
        Ok((machine, _)) => Ok(Reply {
            text: verdicts_text(alloc, &machine)?,
            status: Status::Done,
        }),
        Err(refusal) => Ok(Reply {
            text: quad_fault_text(alloc, refusal)?,
            status: Status::Text,
        }),
    }
}

/// The line of an error of the bytes as a table of quadruples.
pub fn quad_fault_text(alloc: Global, refusal: QuadTableRefusal) -> Result<Vec<u8>, NoMemory>
    ensures { IfOk result (λ text. (refusal ≢ faults.NoMemory) × (text.items ≡ quad_fault_line refusal)) }
{
    match refusal {
        QuadTableRefusal::FieldCount { entry } => record_text(alloc, entry, "fields"),
        QuadTableRefusal::Name { entry, field } => field_text(alloc, entry, field, "name"),
        QuadTableRefusal::Symbol { entry, field } => field_text(alloc, entry, field, "symbol"),
        QuadTableRefusal::Shift { entry, field } => field_text(alloc, entry, field, "shift"),
        QuadTableRefusal::TooMany { entry } => record_text(alloc, entry, "too many"),
        QuadTableRefusal::Empty => empty_text(alloc),
        QuadTableRefusal::NoMemory => Err(NoMemory),
    }
}

// The lines of both tests of a machine.
fn verdicts_text(alloc: Global, machine: &QuadMachine) -> Result<Vec<u8>, NoMemory>
    ensures { IfOk result (λ text. TellsVerdicts machine.now.rules text.items) }
{
    let mut text = verdict_text(alloc, "deterministic", overlap_in_domain(machine))?;
    let second = verdict_text(alloc, "reversible", overlap_in_range(machine))?;
    text.extend_from_slice(second.as_slice())?;
    Ok(text)
}

// The least two quadruples that overlap in domain; `None` if no two overlap.
fn overlap_in_domain(machine: &QuadMachine) -> Option<(u32, u32)>
    ensures { IsVerdict Domain machine.now.rules result }
{
    machine.check_deterministic().err()
}

// The least two quadruples that overlap in range; `None` if no two overlap.
fn overlap_in_range(machine: &QuadMachine) -> Option<(u32, u32)>
    ensures { IsVerdict Range machine.now.rules result }
{
    machine.check_reversible().err()
}

// The line of a test that found these two quadruples, or none.
fn verdict_text(alloc: Global, name: &str, found: Option<(u32, u32)>) -> Result<Vec<u8>, NoMemory>
    ensures { IfOk result (λ text. text.items ≡ verdict_line name.now found) }
{
    match found {
        None => Ok(format!(in alloc; "{name} yes\n")?.into_bytes()),
        Some((i, j)) => Ok(format!(in alloc; "{name} no {i} {j}\n")?.into_bytes()),
    }
}
