//! The machine of k increments.
ghost use Rattle.std.specs.Prelude.{◌≡◌, IfOk};
ghost use Rattle.bn_gen.specs.Increments.{incrementer, IsRoundCount};

use crate::rounds::list_quints;
use bn_lists::NoMemory;
use bn_machine::{Machine, MachineRefusal};
use std::alloc::Global;

/// The most increments.
pub const MOST_INCREMENTS: u32 = 4;

/// The machine, in standard form, that adds one to a binary number k times, one round after another; k is from 1 to 4.
/// Its symbols are the blank, the digit 0 and the digit 1, in this order, and its states are numbered by first
/// appearance, from 0. Fails only if memory runs out. The machine is this project's own.
pub fn increments(alloc: Global, k: u32) -> Result<Machine, NoMemory>
    requires { IsRoundCount k }
    ensures { IfOk result (λ machine. machine ≡ incrementer k) }
{
    let quints = list_quints(alloc, k)?;
    match Machine::try_new(quints, 3 * k + 2, 3) {
        Ok(machine) => Ok(machine),
        Err(MachineRefusal::Empty) => unreachable!(),
        Err(MachineRefusal::Range { .. }) => unreachable!(),
    }
}
