//! Numbers for the states in place of names, by first appearance.

ghost use Rattle.std.specs.Prelude.{◌≡◌, ◌<◌, ◌-◌, ◌^◌, Some, OnOk, IfOk, length, map, slice_get};
ghost use Rattle.bn_standardise.specs.Numbering as numbers;
ghost use Rattle.bn_standardise.specs.Standardised.{numbered};

use crate::name::Name;
use crate::rule::Rule;
use bn_lists::NoMemory;
use bn_machine::Quint;
use indexmap::IndexSet;
use std::alloc::Global;

/// Quintuples with numbers for their states, and the number of states.
#[derive(Drop)]
pub struct Numbered {
    pub quints: Vec<Quint>,
    pub states: u32,
}

// The number of a name. A new name is added at the end.
fn number_of(names: &mut IndexSet<Name>, name: Name) -> Result<u32, NoMemory>
    requires { length names.old.keys < 2 ^ 32 - 1 }
    ensures names { OnOk result (names.new.keys ≡ numbers.with_name names.old.keys name) }
    ensures number { IfOk result (λ number. slice_get names.new.keys number ≡ Some name) }
{
    let (number, _) = names.insert_full(name)?;
    Ok(number as u32)
}

/// The quintuples of a list of quintuples with names (`Rule`).
pub(crate) fn number_rules(alloc: Global, rules: &[Rule]) -> Result<Numbered, NoMemory>
    requires few { length rules.now < 2 ^ 30 }
    ensures quints { IfOk result (λ made. made.quints.items ≡ map (numbered (numbers.number_of rules.now)) rules.now) }
    ensures states { IfOk result (λ made. made.states ≡ numbers.states_of rules.now) }
{
    let mut names = IndexSet::new(alloc);
    let mut quints = Vec::new(alloc);
    for rule in rules {
        let state = number_of(&mut names, rule.state)?;
        let next = number_of(&mut names, rule.next)?;
        let quint = Quint {
            state,
            read: rule.read,
            write: rule.write,
            shift: rule.shift,
            next,
        };
        quints.push(quint)?;
    }
    let states = names.len() as u32;
    Ok(Numbered { quints, states })
}
