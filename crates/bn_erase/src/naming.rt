//! The printed names of the erasing machine's states and symbols.
ghost use Rattle.std.specs.Prelude.{◌≡◌, ◌∷◌, IfOk, OnOk, map};
ghost use Rattle.bn_quad.specs.Names.{nameless};
ghost use Rattle.bn_qtable.specs.Named.{HasNames};
ghost use Rattle.bn_bennett.specs.Printed.{bennett_state_text, with_states};
ghost use Rattle.bn_erase.specs.Joint.{IsJoint};
ghost use Rattle.bn_erase.specs.Made.{IsErasing};
ghost use Rattle.bn_erase.specs.Printable.{ArePrintable};
ghost use Rattle.bn_erase.specs.Printed.{erasing_text, names_of};

use crate::erasing::Erasing;
use crate::joined::Joined;
use bn_bennett::{add_history_symbols, add_letters, name_text};
use bn_bennett_laws::Name;
use bn_erase_laws::ErasingName;
use bn_lists::NoMemory;
use bn_quad::QuadNames;
use std::alloc::Global;

/// The names of an erasing machine's states and symbols: each state of the first machine has `F` and its name, each
/// of the second `G` and its name. The symbols of tapes 1 and 3 have the joint letters, those of tape 2 have `_` and
/// the numbers from 1 to the greater number of quintuples. With these names the machine can be written as a table of
/// quadruples. `Err`: out of memory.
pub fn erasing_names(
    alloc: Global,
    joined: &Joined,
    erasing: &Erasing,
) -> Result<QuadNames, NoMemory>
    requires { IsErasing joined.now.first joined.now.second erasing.now }
    ensures names { IfOk result (λ names. names ≡ names_of joined.now erasing.now) }
    ensures forms { IfOk result (HasNames erasing.now.machine) }
{
    all_names(alloc, joined, erasing)
}

// All names of an erasing machine. The contract also states what holds for two machines over one alphabet.
fn all_names(alloc: Global, joined: &Joined, erasing: &Erasing) -> Result<QuadNames, NoMemory>
    requires { IsErasing joined.now.first joined.now.second erasing.now }
    ensures names { IfOk result (λ names. names ≡ names_of joined.now erasing.now) }
    ensures valid { IsJoint joined.now }
{
    let mut names = QuadNames::empty(alloc);
    let first = joined.first().quints().len() as u32;
    let second = joined.second().quints().len() as u32;
    add_states(alloc, &mut names, erasing.names())?;
    add_letters(&mut names, 1, joined.letters())?;
    add_history_symbols(alloc, &mut names, first.max(second))?;
    add_letters(&mut names, 3, joined.letters())?;
    Ok(names)
}

// Names each state.
fn add_states(alloc: Global, names: &mut QuadNames, states: &[ErasingName]) -> Result<(), NoMemory>
    requires empty { names.old ≡ nameless }
    requires printable { ArePrintable states.now }
    ensures { OnOk result (names.new ≡ with_states (map erasing_text states.now)) }
{
    for name in states {
        let text = text_of(alloc, *name)?;
        names.add_state(text.as_slice())?;
    }
    Ok(())
}

// The printed text of a state's name.
fn text_of(alloc: Global, name: ErasingName) -> Result<Vec<u8>, NoMemory>
    ensures { IfOk result (λ text. text.items ≡ erasing_text name) }
{
    match name {
        ErasingName::First(name) => marked_text(alloc, b'F', name),
        ErasingName::Second(name) => marked_text(alloc, b'G', name),
    }
}

// The printed text of a name of one of the two machines, with a letter before it.
fn marked_text(alloc: Global, letter: u8, name: Name) -> Result<Vec<u8>, NoMemory>
    ensures { IfOk result (λ text. text.items ≡ letter ∷ bennett_state_text name) }
{
    let own = name_text(alloc, name)?;
    let mut text = Vec::new(alloc);
    text.push(letter)?;
    text.extend_from_slice(own.as_slice())?;
    Ok(text)
}
