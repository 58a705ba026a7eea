//! The input of the commands that read a table of quadruples whose machine passes both tests: the opened table, or the
//! refusal.

ghost use Rattle.std.specs.Prelude.{◌≡◌, IfOk};
ghost use Rattle.bn_reply_machines.specs.QuadReply.{overlap_line, tape_foreign_line};
ghost use Rattle.bn_reply_machines.specs.Opened.{AreOpenedQuads};

use crate::reversible::quad_fault_text;
use bn_lists::NoMemory;
use bn_qtable::read_quads;
use bn_quad::{QuadMachine, QuadNames};
use bn_reply::{Reply, Status};
use std::alloc::Global;

/// A table of quadruples whose machine is deterministic and reversible, or the answer to other bytes.
#[derive(Drop)]
pub enum OpenedQuads {
    /// The machine, and the names of its states and symbols.
    Read(QuadMachine, QuadNames),
    /// The answer to other bytes.
    Refused(Reply),
}

/// Reads the bytes as a table of quadruples, and tests its machine.
pub fn open_quads(alloc: Global, bytes: &[u8]) -> Result<OpenedQuads, NoMemory>
    ensures { IfOk result (AreOpenedQuads bytes.now) }
{
    let (machine, names) = match read_quads(alloc, bytes) {
        Ok(table) => table,
        Err(refusal) => {
            return Ok(OpenedQuads::Refused(Reply {
                text: quad_fault_text(alloc, refusal)?,
                status: Status::Text,
            }));
        }
    };
    if let Err((i, j)) = machine.check_deterministic() {
        return Ok(OpenedQuads::Refused(overlap(alloc, "domain", i, j)?));
    }
    if let Err((i, j)) = machine.check_reversible() {
        return Ok(OpenedQuads::Refused(overlap(alloc, "range", i, j)?));
    }
    Ok(OpenedQuads::Read(machine, names))
}

// The answer that two quadruples overlap, or violate a condition together, with the name of the test or condition.
pub(crate) fn overlap(alloc: Global, test: &str, i: u32, j: u32) -> Result<Reply, NoMemory>
    ensures status { IfOk result (λ r. r.status ≡ Status.Machine) }
    ensures text { IfOk result (λ r. r.text.items ≡ overlap_line test.now i j) }
{
    Ok(Reply {
        text: format!(in alloc; "machine: {test} {i} {j}\n")?.into_bytes(),
        status: Status::Machine,
    })
}

/// The answer that the letter at this place of the word on a tape, both counted from 1, is not allowed.
pub fn foreign_on_tape(alloc: Global, tape: u32, place: usize) -> Result<Reply, NoMemory>
    ensures status { IfOk result (λ r. r.status ≡ Status.Word) }
    ensures text { IfOk result (λ r. r.text.items ≡ tape_foreign_line tape place) }
{
    Ok(Reply {
        text: format!(in alloc; "word: {tape} {place}\n")?.into_bytes(),
        status: Status::Word,
    })
}
