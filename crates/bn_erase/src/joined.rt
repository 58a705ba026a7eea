//! Two machines over one alphabet.
ghost use Rattle.std.specs.Prelude.{◌≡◌, ℕ, ◌<◌, ◌≤◌, ◌^◌, ◌++◌, ◌==◌, All, IfOk, OnOk, IfSome, IfNone, Some, Contains};
ghost use Rattle.std.specs.Prelude.{filter, length, map, not, slice_get, slice_index};
ghost use Rattle.std.specs.List.{list_any};
ghost use Rattle.bn_machine.specs.Machine.{IsInRange};
ghost use Rattle.bn_lists.specs.Lists.{IsIn};
ghost use Rattle.bn_table.specs.Rows.{IsTable};
ghost use Rattle.bn_erase.specs.Joint.{joined, joint_letters, number_in};
ghost use Rattle.bn_erase.specs.Recoded.{recoded, recoded_quint, with_symbols};

use bn_lists::NoMemory;
use bn_machine::{Machine, Quint};
use bn_table::{Table, place_of};
use std::alloc::Global;
use std::marker::Model;

/// Two machines over one alphabet, and the letters of its symbols, `_` for symbol 0. Contracts see the three. Both
/// machines have the form of tables, and as many symbols as there are letters.
#[derive(Drop)]
pub struct Joined {
    first: Machine,
    second: Machine,
    letters: Vec<u8>,
}

impl Model for Joined {
    ghost use Rattle.bn_erase.specs.Joint.{Joint, IsJoint, joint_of};

    ghost Value = { Joint };

    ghost view = { λ j. joint_of j.first j.second j.letters.items };

    ghost invariant = { λ j. IsJoint (joint_of j.first j.second j.letters.items) };
}

impl Joined {
    ghost use Rattle.bn_erase.specs.Joint.{IsJoint};

    /// The first machine.
    pub fn first(&self) -> &Machine
        ensures value { result.now ≡ self.now.first }
        ensures valid { IsJoint self.now }
    {
        &self.first
    }

    /// The second machine.
    pub fn second(&self) -> &Machine
        ensures value { result.now ≡ self.now.second }
        ensures valid { IsJoint self.now }
    {
        &self.second
    }

    /// The letters of the symbols, each at its symbol's number.
    pub fn letters(&self) -> &[u8]
        ensures value { result.now ≡ self.now.letters }
        ensures valid { IsJoint self.now }
    {
        self.letters.as_slice()
    }

    /// The letter of a symbol, counted from 0.
    pub fn letter(&self, symbol: u32) -> u8
        requires { symbol < length self.now.letters }
        ensures { slice_get self.now.letters symbol ≡ Some result }
    {
        self.letters[symbol as usize]
    }

    /// The symbol of a letter, counted from 0. `None` exactly for a byte that is not a letter of the alphabet. The
    /// contract also states what holds for two machines over one alphabet.
    pub fn symbol_of(&self, letter: u8) -> Option<u32>
        ensures found { IfSome result (λ symbol. slice_get self.now.letters symbol ≡ Some letter) }
        ensures none { IfNone result (¬ Contains self.now.letters letter) }
        ensures valid { IsJoint self.now }
    {
        place_of(self.letters.as_slice(), letter)
    }
}

/// The machines of two tables over one alphabet: the letters of the first in their order, followed by the further
/// letters of the second in theirs. The first machine's symbols keep their numbers. (Own to this project.) `Err`: out
/// of memory.
pub fn join_letters(alloc: Global, first: &Table, second: &Table) -> Result<Joined, NoMemory>
    ensures { IfOk result (λ j. j ≡ joined first.now second.now) }
{
    let letters = joint_letters(alloc, first, second)?;
    let first = with_symbols(alloc, first.machine(), letters.len() as u32)?;
    let second = recoded(alloc, second, letters.as_slice())?;
    Ok(Joined {
        first,
        second,
        letters,
    })
}

// The letters of both tables.
fn joint_letters(alloc: Global, first: &Table, second: &Table) -> Result<Vec<u8>, NoMemory>
    ensures made { IfOk result (λ letters. letters.items ≡ joint_letters first.now.letters second.now.letters) }
    ensures first { OnOk result (IsTable first.now) }
    ensures second { OnOk result (IsTable second.now) }
{
    let mut letters = Vec::from_slice(alloc, first.letters())?;
    add_further_letters(&mut letters, first, second.letters())?;
    Ok(letters)
}

// Appends the letters of `more` that the first table does not have.
fn add_further_letters(letters: &mut Vec<u8>, first: &Table, more: &[u8]) -> Result<(), NoMemory>
    ensures { OnOk result (letters.new.items ≡ letters.old.items
        ++ filter (λ letter. not (list_any (λ known. known == letter) first.now.letters)) more.now) }
{
    for letter in more {
        if first.symbol_of(*letter).is_none() {
            letters.push(*letter)?;
        }
    }
    Ok(())
}

// The machine with this number of symbols in all.
fn with_symbols(alloc: Global, machine: &Machine, symbols: u32) -> Result<Machine, NoMemory>
    requires { machine.now.symbols ≤ symbols }
    ensures { IfOk result (λ m. m ≡ with_symbols symbols machine.now) }
{
    let quints = Vec::from_slice(alloc, machine.quints())?;
    match Machine::try_new(quints, machine.states(), symbols) {
        Ok(machine) => Ok(machine),
        Err(_) => unreachable!(),
    }
}

// The table's machine, with each symbol replaced by the number of its letter among these letters, which include all
// of the table's.
fn recoded(alloc: Global, table: &Table, letters: &[u8]) -> Result<Machine, NoMemory>
    requires known { (letter : ℕ) → IsIn table.now.letters letter → IsIn letters.now letter }
    requires few { length letters.now < 2 ^ 32 }
    ensures { IfOk result (λ m. m ≡ recoded (λ symbol. number_in letters.now (slice_index table.now.letters symbol))
        (length letters.now) table.now.machine) }
{
    let machine = table.machine();
    let quints = recoded_quints(alloc, table, letters, machine.quints())?;
    match Machine::try_new(quints, machine.states(), letters.len() as u32) {
        Ok(machine) => Ok(machine),
        Err(_) => unreachable!(),
    }
}

// The quintuples, with each symbol replaced by the number of its letter.
fn recoded_quints(
    alloc: Global,
    table: &Table,
    letters: &[u8],
    quints: &[Quint],
) -> Result<Vec<Quint>, NoMemory>
    requires in_range { All (IsInRange table.now.machine.states table.now.machine.symbols) quints.now }
    requires few { length letters.now < 2 ^ 32 }
    ensures { IfOk result (λ made. made.items ≡ map (recoded_quint (λ symbol. number_in letters.now
        (slice_index table.now.letters symbol))) quints.now) }
{
    let mut made = Vec::new(alloc);
    for quint in quints {
        made.push(recoded_quint(table, letters, quint))?;
    }
    Ok(made)
}

// The quintuple, with each symbol replaced by the number of its letter.
fn recoded_quint(table: &Table, letters: &[u8], quint: &Quint) -> Quint
    requires in_range { IsInRange table.now.machine.states table.now.machine.symbols quint.now }
    requires few { length letters.now < 2 ^ 32 }
    ensures { result ≡ recoded_quint (λ symbol. number_in letters.now
        (slice_index table.now.letters symbol)) quint.now }
{
    Quint {
        state: quint.state,
        read: number_in(letters, table.letter(quint.read)),
        write: number_in(letters, table.letter(quint.write)),
        shift: quint.shift,
        next: quint.next,
    }
}

// The number of a letter among others, counted from 0: the number of letters before it.
fn number_in(letters: &[u8], letter: u8) -> u32
    requires { length letters.now < 2 ^ 32 }
    ensures { result ≡ number_in letters.now letter }
{
    match place_of(letters, letter) {
        Some(number) => number,
        None => letters.len() as u32,
    }
}
