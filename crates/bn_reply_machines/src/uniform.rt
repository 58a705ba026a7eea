//! The input of the commands that build a circuit from a table of quadruples: its machine must also be uniform.

ghost use Rattle.std.specs.Prelude.{◌≡◌, List, ℕ, IfOk};
ghost use Rattle.bn_reply_machines.specs.Opened.{IsOpenedUniform};
ghost use Rattle.bn_reply_machines.specs.UniformReply.{failing_line, flaw_line, uneven_line};

use crate::opening::overlap;
use crate::reversible::quad_fault_text;
use bn_lists::NoMemory;
use bn_qtable::read_quads;
use bn_quad::{NotUniform, QuadNames, Uniform, UniformRefusal};
use bn_reply::{Reply, Status};
use std::alloc::Global;

/// A table of quadruples whose machine is deterministic, reversible and uniform, or the answer to other bytes.
#[derive(Drop)]
pub enum OpenedUniform {
    /// The machine, and the names of its states and symbols.
    Read(Uniform, QuadNames),
    /// The answer to other bytes.
    Refused(Reply),
}

/// Reads the bytes as a table of quadruples, and tests whether its machine is deterministic, reversible and uniform. A
/// refusal reports the first error of the bytes, or the first test that fails, with the least quadruples that show it.
pub fn open_uniform(alloc: Global, bytes: &[u8]) -> Result<OpenedUniform, NoMemory>
    ensures { IfOk result (IsOpenedUniform bytes.now) }
{
    let (machine, names) = match read_quads(alloc, bytes) {
        Ok(table) => table,
        Err(refusal) => {
            return Ok(OpenedUniform::Refused(Reply {
                text: quad_fault_text(alloc, refusal)?,
                status: Status::Text,
            }));
        }
    };
    match machine.into_uniform() {
        Ok(machine) => Ok(OpenedUniform::Read(machine, names)),
        Err((_, why)) => Ok(OpenedUniform::Refused(failing(alloc, why)?)),
    }
}

// The answer that a machine fails a test.
fn failing(alloc: Global, why: UniformRefusal) -> Result<Reply, NoMemory>
    ensures status { IfOk result (λ r. r.status ≡ Status.Machine) }
    ensures text { IfOk result (λ r. r.text.items ≡ failing_line why) }
{
    match why {
        UniformRefusal::Domain(i, j) => overlap(alloc, "domain", i, j),
        UniformRefusal::Range(i, j) => overlap(alloc, "range", i, j),
        UniformRefusal::Mask(why) => uneven(alloc, why),
    }
}

// The answer that a machine is not uniform.
fn uneven(alloc: Global, why: NotUniform) -> Result<Reply, NoMemory>
    ensures status { IfOk result (λ r. r.status ≡ Status.Machine) }
    ensures text { IfOk result (λ r. r.text.items ≡ uneven_line why) }
{
    match why {
        NotUniform::ReadMask { i, j } => overlap(alloc, "reads", i, j),
        NotUniform::WriteMask { i, j } => overlap(alloc, "writes", i, j),
        NotUniform::Silent { i } => flaw(alloc, "silent", i),
        NotUniform::InitialEntered { i } => flaw(alloc, "initial", i),
        NotUniform::FinalLeft { i } => flaw(alloc, "final", i),
    }
}

// The answer that a quadruple violates a condition, with the name of the condition.
fn flaw(alloc: Global, demand: &str, i: u32) -> Result<Reply, NoMemory>
    ensures status { IfOk result (λ r. r.status ≡ Status.Machine) }
    ensures text { IfOk result (λ r. r.text.items ≡ flaw_line demand.now i) }
{
    Ok(Reply {
        text: format!(in alloc; "machine: {demand} {i}\n")?.into_bytes(),
        status: Status::Machine,
    })
}
