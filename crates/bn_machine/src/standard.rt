//! Machines in standard form, and the test.
ghost use Rattle.std.specs.Prelude.{◌≡◌, IfOk, OnOk, IfErr};
ghost use Rattle.bn_machine.specs.Standard.{IsStandard};
ghost use Rattle.bn_machine.specs.Verdict.{IsStandardRefusal};

use crate::Machine;
use crate::demands::{begins_well, ends_well, first_final_use, first_repeat, first_start_use};
use crate::why::Why;
use std::alloc::Global;
use std::marker::Model;

/// A machine in standard form. Contracts see the machine.
#[derive(Drop)]
pub struct Standard<'a> {
    machine: &'a Machine,
}

impl<'a> Model for Standard<'a> {
    ghost use Rattle.bn_machine.specs.Machine.{Program};
    ghost use Rattle.bn_machine.specs.Standard.{IsStandard};

    ghost Value = { Program };

    ghost view = { λ s. s.machine.now };

    ghost invariant = { λ s. IsStandard s.machine.now.quints };
}

impl Standard<'_> {
    ghost use Rattle.std.specs.Prelude.{◌≡◌};
    ghost use Rattle.bn_machine.specs.Standard.{IsStandard};

    /// The machine.
    pub fn machine(&self) -> &Machine
        ensures value { result.now ≡ self.now }
        ensures standard { IsStandard self.now.quints }
    {
        self.machine
    }
}

/// The machine as one in standard form, exactly if it is. The error is the first of the five conditions that fails,
/// with the first quintuples that show it, or `NoMemory`, which the contract always allows.
pub fn check<'a>(alloc: Global, machine: &'a Machine) -> Result<Standard<'a>, Why>
    ensures made { IfOk result (λ s. s ≡ machine.now) }
    ensures standard { OnOk result (IsStandard machine.now.quints) }
    ensures refused { IfErr result (IsStandardRefusal machine.now.quints) }
{
    // (the test allocates no memory; callers pass the allocator all the same)
    let _ = alloc;
    let quints = machine.quints();
    if let Some((i, j)) = first_repeat(quints) {
        return Err(Why::Repeat { i, j });
    }
    if !begins_well(quints) {
        return Err(Why::First);
    }
    let start = machine.start_state();
    if let Some(i) = first_start_use(quints, start) {
        return Err(Why::StartUsed { i });
    }
    if !ends_well(quints, start) {
        return Err(Why::Last);
    }
    if let Some(i) = first_final_use(quints, machine.final_state()) {
        return Err(Why::FinalUsed { i });
    }
    Ok(Standard { machine })
}
