//! The tests of a machine that is to be converted to standard form.

ghost use Rattle.std.specs.Prelude.{◌≡◌, ◌↔◌, ◌<◌, ◌≤◌, ◌^◌, IsTrue, MatchOption, IfErr, OnOk, length};
ghost use Rattle.bn_machine.specs.Machine.{final_of};
ghost use Rattle.bn_machine.specs.Standard.{IsUnambiguous};
ghost use Rattle.bn_standardise.specs.Limits.{most_symbols};
ghost use Rattle.bn_standardise.specs.Standardised.{HasNoHalting};
ghost use Rattle.bn_standardise.specs.Refusals.{IsAccepted, IsLeastHalting};
ghost use Rattle.bn_standardise.specs.Refusals.{IsLooseRefusal, IsRepeatRefusal};

use crate::refusal::LooseRefusal;
use bn_machine::{Machine, Quint, Why, check};
use bn_table::MOST_ENTRIES;
use std::alloc::Global;

// Tests that no two quintuples share state and scanned symbol. This is the first condition of standard form; therefore
// `check` reports exactly if it fails. The other refusals of `check` do not matter here.
fn test_repeats(alloc: Global, machine: &Machine) -> Result<(), LooseRefusal>
    ensures ok { OnOk result (IsUnambiguous machine.now.quints) }
    ensures refused { IfErr result (IsRepeatRefusal machine.now.quints) }
{
    match check(alloc, machine) {
        Err(Why::Repeat { i, j }) => Err(LooseRefusal::Repeat { i, j }),
        Err(Why::NoMemory) => Err(LooseRefusal::NoMemory),
        _ => Ok(()),
    }
}

// Whether the quintuple leaves this state.
fn leaves(quint: &Quint, state: u32) -> bool
    ensures { IsTrue result ↔ (quint.now.state ≡ state) }
{
    quint.state == state
}

// The first quintuple that leaves the halting state, counted from 1.
fn first_halting(quints: &[Quint], halt: u32) -> Option<u32>
    requires few { length quints.now < 2 ^ 32 }
    requires state { halt ≡ final_of quints.now }
    ensures { MatchOption result (HasNoHalting quints.now) (IsLeastHalting quints.now) }
{
    for (index, quint) in quints.iter().enumerate() {
        if leaves(quint, halt) {
            return Some(index as u32 + 1);
        }
    }
    None
}

/// Tests the machine, in this order: the error is `Repeat`, otherwise `Halting`, otherwise `Many`.
pub(crate) fn accept(alloc: Global, machine: &Machine) -> Result<(), LooseRefusal>
    requires few { length machine.now.quints ≤ MOST_ENTRIES }
    requires letters { machine.now.symbols ≤ most_symbols }
    ensures ok { OnOk result (IsAccepted machine.now) }
    ensures refused { IfErr result (IsLooseRefusal machine.now) }
{
    test_repeats(alloc, machine)?;
    let quints = machine.quints();
    if let Some(i) = first_halting(quints, machine.final_state()) {
        return Err(LooseRefusal::Halting { i });
    }
    let count = quints.len() as u32 + machine.symbols() + 1;
    if count > MOST_ENTRIES {
        return Err(LooseRefusal::Many { count });
    }
    Ok(())
}
