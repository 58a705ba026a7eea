//! The machine in standard form.

ghost use Rattle.std.specs.Prelude.{◌≡◌, ◌≤◌, IfOk, IfErr, OnOk, length};
ghost use Rattle.bn_machine.specs.Standard.{IsStandard};
ghost use Rattle.bn_standardise.specs.Limits.{most_symbols};
ghost use Rattle.bn_standardise.specs.Standardised.{standardised};
ghost use Rattle.bn_standardise.specs.Refusals.{IsAccepted, IsLooseRefusal};

use crate::acceptance::accept;
use crate::listing::list_rules;
use crate::numbering::number_rules;
use crate::refusal::LooseRefusal;
use bn_lists::NoMemory;
use bn_machine::{Machine, MachineRefusal};
use bn_table::MOST_ENTRIES;
use std::alloc::Global;

// The machine in standard form for an accepted machine.
fn build(alloc: Global, machine: &Machine) -> Result<Machine, NoMemory>
    requires accepted { IsAccepted machine.now }
    ensures { IfOk result (λ made. made ≡ standardised machine.now) }
{
    let rules = list_rules(alloc, machine)?;
    let numbered = number_rules(alloc, rules.as_slice())?;
    match Machine::try_new(numbered.quints, numbered.states, machine.symbols()) {
        Ok(made) => Ok(made),
        Err(MachineRefusal::Empty) => unreachable!(),
        Err(MachineRefusal::Range { .. }) => unreachable!(),
    }
}

/// The machine in standard form that is equivalent to this one, whose run begins on the first letter of its word. Its
/// quintuples are one that steps onto the word, the machine's own, one for each symbol except the blank that steps back
/// over it in the halting state, and one that ends at a blank. Its states are numbered by first appearance in this
/// list, counted from 0. The error is `Repeat` exactly if two quintuples share state and scanned symbol; otherwise
/// `Halting` exactly if a quintuple leaves the halting state; otherwise `Many` exactly if the list would have more
/// than 4,000 quintuples. It is `NoMemory` if memory runs out.
pub fn standardise(alloc: Global, machine: &Machine) -> Result<Machine, LooseRefusal>
    requires few { length machine.now.quints ≤ MOST_ENTRIES }
    requires letters { machine.now.symbols ≤ most_symbols }
    ensures made { IfOk result (λ made. made ≡ standardised machine.now) }
    ensures standard { OnOk result (IsStandard (standardised machine.now).quints) }
    ensures accepted { OnOk result (IsAccepted machine.now) }
    ensures refused { IfErr result (IsLooseRefusal machine.now) }
{
    accept(alloc, machine)?;
    Ok(build(alloc, machine)?)
}
