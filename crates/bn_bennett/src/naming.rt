//! The printed names of the reversible machine's states and symbols.
ghost use Rattle.std.specs.Prelude.{◌≡◌, ◌+◌, ◌-◌, ◌^◌, ◌<◌, ◌≤◌, [], ◌∷◌, IfOk, OnOk, OnErr, length, map, decimal};
ghost use Rattle.std.specs.List.{range_with_len};
ghost use Rattle.bn_machine.specs.Machine.{IsMachine};
ghost use Rattle.bn_table.specs.Rows.{FitsTable, IsTable as IsReadTable};
ghost use Rattle.bn_quad.specs.Names.{nameless, symbols_on};
ghost use Rattle.bn_qtable.specs.Named.{HasNames};
ghost use Rattle.bn_qtable.specs.Rows.{IsTable, table_of};
ghost use Rattle.bn_bennett.specs.Translation.{IsTranslation};
ghost use Rattle.bn_bennett.specs.Printed.{print_of, bennett_state_text, one_byte, number_names, ArePrintable};
ghost use Rattle.bn_bennett.specs.Printed.{AreLetters, with_states};
ghost use Rattle.bn_bennett.specs.Printed.{on_tape, translation_names};
ghost use Rattle.bn_bennett.specs.InPart.{AreNamedInPart};

use crate::translated::Translated;
use bn_base::push_u64;
use bn_bennett_laws::Name;
use bn_lists::NoMemory;
use bn_quad::QuadNames;
use bn_table::Table;
use std::alloc::Global;

/// The parts of a printed name: a letter for its stage, a number, and whether a prime follows.
#[derive(Clone, Copy)]
pub struct Print {
    pub letter: u8,
    pub number: u64,
    pub primed: bool,
}

// The parts of a state's printed name.
fn print_of(name: Name) -> Print
    ensures { result ≡ print_of name }
{
    let (letter, number, primed) = match name {
        Name::Compute(state) => (b'A', u64::from(state) + 1, false),
        Name::ComputeWithin(quint) => (b'A', u64::from(quint), true),
        Name::GoRight => (b'B', 1, true),
        Name::CopyLetter => (b'B', 1, false),
        Name::GoLeft => (b'B', 2, true),
        Name::PassLetter => (b'B', 2, false),
        Name::Retrace(state) => (b'C', u64::from(state) + 1, false),
        Name::RetraceWithin(quint) => (b'C', u64::from(quint), true),
    };
    Print {
        letter,
        number,
        primed,
    }
}

/// The printed text of a state's name: `A` and the state's number counted from 1, `A`, the quintuple's number and a
/// prime, `B1'`, `B1`, `B2'`, `B2`, and `C` likewise (own to this project). `Err`: out of memory.
pub fn name_text(alloc: Global, name: Name) -> Result<Vec<u8>, NoMemory>
    ensures { IfOk result (λ text. text.items ≡ bennett_state_text name) }
{
    let print = print_of(name);
    let mut text = Vec::new(alloc);
    text.push(print.letter)?;
    push_u64(&mut text, print.number)?;
    if print.primed {
        text.push(b'\'')?;
    }
    Ok(text)
}

// The decimal text of a number.
fn number_text(alloc: Global, number: u32) -> Result<Vec<u8>, NoMemory>
    ensures { IfOk result (λ text. text.items ≡ decimal number) }
{
    let mut text = Vec::new(alloc);
    push_u64(&mut text, u64::from(number))?;
    Ok(text)
}

// Names each state.
fn add_states(alloc: Global, names: &mut QuadNames, states: &[Name]) -> Result<(), NoMemory>
    requires empty { names.old ≡ nameless }
    requires printable { ArePrintable states.now }
    ensures { OnOk result (names.new ≡ with_states (map bennett_state_text states.now)) }
{
    for name in states {
        let text = name_text(alloc, *name)?;
        names.add_state(text.as_slice())?;
    }
    Ok(())
}

/// Gives the symbols of tape 1, 2 or 3, which have no names yet, these letters as names; the letters are distinct.
/// After `NoMemory` the first of the symbols may have their names, and nothing else has changed.
pub fn add_letters(names: &mut QuadNames, tape: u32, letters: &[u8]) -> Result<(), NoMemory>
    requires first { 1 ≤ tape }
    requires last { tape ≤ 3 }
    requires letters { AreLetters letters.now }
    requires empty { symbols_on names.old tape ≡ [] }
    ensures named { OnOk result (names.new ≡ on_tape names.old tape (map one_byte letters.now)) }
    ensures refused { OnErr result (AreNamedInPart names.old names.new tape (map one_byte letters.now)) }
{
    for letter in letters {
        names.add_symbol(tape, &[*letter])?;
    }
    Ok(())
}

/// Names the symbols of tape 2, the history, which have no names yet: `_` for the blank, and the numbers from 1 to
/// `count` for the others. After `NoMemory` the first of the symbols may have their names, and nothing else has
/// changed.
pub fn add_history_symbols(alloc: Global, names: &mut QuadNames, count: u32) -> Result<(), NoMemory>
    requires few { count < 2 ^ 32 - 2 }
    requires empty { symbols_on names.old 2 ≡ [] }
    ensures named { OnOk result (names.new ≡ on_tape names.old 2 (number_names count)) }
    ensures refused { OnErr result (AreNamedInPart names.old names.new 2 (number_names count)) }
{
    names.add_symbol(2, b"_")?;
    for index in 0..count {
        let text = number_text(alloc, index + 1)?;
        names.add_symbol(2, text.as_slice())?;
    }
    Ok(())
}

// All names of a translation. The contract also states what holds for every table.
fn all_names(alloc: Global, table: &Table, translated: &Translated) -> Result<QuadNames, NoMemory>
    requires { IsTranslation table.now.machine translated.now }
    ensures names { IfOk result (λ names. names ≡ translation_names table.now translated.now) }
    ensures machine { IsMachine table.now.machine }
    ensures table { IsReadTable table.now }
    ensures fits { FitsTable table.now.machine }
{
    let mut names = QuadNames::empty(alloc);
    let count = table.machine().quints().len() as u32;
    add_states(alloc, &mut names, translated.names())?;
    add_letters(&mut names, 1, table.letters())?;
    add_history_symbols(alloc, &mut names, count)?;
    add_letters(&mut names, 3, table.letters())?;
    Ok(names)
}

/// The names of a translation's states and symbols: `A` and the state's number counted from 1, `A`, the quintuple's
/// number and a prime, `B1'`, `B1`, `B2'`, `B2`, and `C` likewise. The symbols of tapes 1 and 3 have the table's
/// letters; those of tape 2 have `_` and the numbers from 1 on. With these names the machine can be written as a
/// table of quadruples, which is read back as the same machine and names. `Err`: out of memory.
pub fn names(alloc: Global, table: &Table, translated: &Translated) -> Result<QuadNames, NoMemory>
    requires { IsTranslation table.now.machine translated.now }
    ensures names { IfOk result (λ names. names ≡ translation_names table.now translated.now) }
    ensures forms { IfOk result (HasNames translated.now.machine) }
    ensures table { IfOk result (λ names. IsTable (table_of translated.now.machine names)) }
{
    all_names(alloc, table, translated)
}
