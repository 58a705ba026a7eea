//! The list of the machine in standard form, with names for its states.

ghost use Rattle.std.specs.Prelude.{◌≡◌, ◌-◌, ◌<◌, ◌++◌, OnOk, IfOk, map};
ghost use Rattle.bn_standardise.specs.Rules as rules;

use crate::rule::{Rule, back_over, entering, leaving, renamed};
use bn_lists::NoMemory;
use bn_machine::{Machine, Quint};
use std::alloc::Global;

// Adds the machine's own quintuples.
fn add_own(list: &mut Vec<Rule>, quints: &[Quint]) -> Result<(), NoMemory>
    ensures { OnOk result (list.new.items ≡ list.old.items ++ map rules.own_rule quints.now) }
{
    for quint in quints {
        list.push(renamed(quint))?;
    }
    Ok(())
}

// Adds the quintuples that step back over a symbol, one for each symbol but the blank.
fn add_back(list: &mut Vec<Rule>, halt: u32, symbols: u32) -> Result<(), NoMemory>
    requires { 0 < symbols }
    ensures { OnOk result (list.new.items ≡ list.old.items ++ rules.back_over_all halt 1 (symbols - 1)) }
{
    for letter in 1..symbols {
        list.push(back_over(halt, letter))?;
    }
    Ok(())
}

/// The list of the machine in standard form that is equivalent to this machine.
pub(crate) fn list_rules(alloc: Global, machine: &Machine) -> Result<Vec<Rule>, NoMemory>
    ensures { IfOk result (λ list. list.items ≡ rules.rules_of machine.now) }
{
    let halt = machine.final_state();
    let mut list = Vec::new(alloc);
    list.push(entering(machine.start_state()))?;
    add_own(&mut list, machine.quints())?;
    add_back(&mut list, halt, machine.symbols())?;
    list.push(leaving(halt))?;
    Ok(list)
}
