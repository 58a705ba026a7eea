//! The command `inverse`.

ghost use Rattle.std.specs.Prelude.{◌≡◌, [], IfOk};
ghost use Rattle.bn_quad.specs.Quadruples.{inverse_of};
ghost use Rattle.bn_csv.specs.Lines.{lines_of};
ghost use Rattle.bn_qtable.specs.Named.{HasNames};
ghost use Rattle.bn_qtable.specs.Rows.{quadruple_rows_by};
ghost use Rattle.bn_reply_machines.specs.InverseReply.{InverseReplies};

use crate::reversible::quad_fault_text;
use bn_lists::NoMemory;
use bn_qtable::{read_quads, write_quads};
use bn_quad::{QuadMachine, QuadNames};
use bn_reply::{Reply, Status};
use std::alloc::Global;

/// The answer of `inverse` to some bytes: a refusal if they are no table of quadruples, or the table of the inverse of
/// its machine (Bennett 1973), with its names: the entries in the opposite order, each inverted. The machine need not
/// pass any test.
pub fn reply_inverse(alloc: Global, bytes: &[u8]) -> Result<Reply, NoMemory>
    ensures { IfOk result (λ r. InverseReplies bytes.now r.status r.text.items []) }
{
    match read_quads(alloc, bytes) {
        Ok((machine, names)) => Ok(Reply {
            text: inverted_text(alloc, &machine, &names)?,
            status: Status::Done,
        }),
        Err(refusal) => Ok(Reply {
            text: quad_fault_text(alloc, refusal)?,
            status: Status::Text,
        }),
    }
}

// The lines of the inverse of a machine, with these names.
fn inverted_text(
    alloc: Global,
    machine: &QuadMachine,
    names: &QuadNames,
) -> Result<Vec<u8>, NoMemory>
    requires { HasNames machine.now names.now }
    ensures { IfOk result (λ text. text.items
        ≡ lines_of (quadruple_rows_by names.now (inverse_of machine.now).rules)) }
{
    let inverse = machine.inverse(alloc)?;
    write_quads(alloc, &inverse, names)
}
