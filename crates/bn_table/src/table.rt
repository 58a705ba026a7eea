//! A machine with names for its states and letters for its symbols.

ghost use Rattle.std.specs.Prelude.{◌≡◌, ◌<◌, ◌^◌, Some, length, slice_get, IfSome, IfNone, Contains, position, ◌==◌};

use bn_csv::Names;
use bn_machine::Machine;
use std::marker::Model;

// The first place of a letter among others.
fn position_of(letters: &[u8], letter: u8) -> Option<usize>
    ensures { result ≡ position (λ known. letter == known) letters.now }
{
    letters.iter().position(|known| letter == *known)
}

/// The first place of a letter among others, counted from 0, or `None` exactly if the letter is not among them.
pub fn place_of(letters: &[u8], letter: u8) -> Option<u32>
    requires few { length letters.now < 2 ^ 32 }
    ensures place { result ≡ position (λ known. letter == known) letters.now }
    ensures found { IfSome result (λ place. slice_get letters.now place ≡ Some letter) }
    ensures none { IfNone result (¬ Contains letters.now letter) }
{
    match position_of(letters, letter) {
        Some(place) => Some(place as u32),
        None => None,
    }
}

/// A table of quintuples: a machine, a name for each state, and a letter, one byte, for each symbol. Its states are
/// numbered by first appearance, in each quintuple its state before its next state. Its symbols are numbered by first
/// appearance, in each quintuple the one read before the one written, with `_` as symbol 0. It has 1 to `MOST_ENTRIES`
/// quintuples.
#[derive(Drop)]
pub struct Table {
    pub(crate) machine: Machine,
    pub(crate) names: Names,
    pub(crate) letters: Vec<u8>,
}

impl Model for Table {
    ghost use Rattle.bn_table.specs.Rows.{Named, named_program, IsTable};

    ghost Value = { Named };

    ghost view = { λ t. named_program t.machine t.names t.letters.items };

    ghost invariant = { λ t. IsTable (named_program t.machine t.names t.letters.items) };
}

impl Table {
    ghost use Rattle.bn_table.specs.Rows.{IsTable, FitsTable};

    /// The machine.
    pub fn machine(&self) -> &Machine
        ensures value { result.now ≡ self.now.machine }
        ensures valid { IsTable self.now }
        ensures fits { FitsTable self.now.machine }
    {
        &self.machine
    }

    /// The name of a state, counted from 0.
    pub fn state_name(&self, state: u32) -> &[u8]
        requires { state < self.now.machine.states }
        ensures { slice_get self.now.names state ≡ Some result.now }
    {
        self.names.get(state)
    }

    /// The letters of the symbols, each at its symbol's number.
    pub fn letters(&self) -> &[u8]
        ensures value { result.now ≡ self.now.letters }
        ensures valid { IsTable self.now }
    {
        self.letters.as_slice()
    }

    /// The letter of a symbol, counted from 0.
    pub fn letter(&self, symbol: u32) -> u8
        requires { symbol < self.now.machine.symbols }
        ensures { slice_get self.now.letters symbol ≡ Some result }
    {
        self.letters[symbol as usize]
    }

    /// The symbol of a letter, counted from 0, or `None` exactly if the table has no such letter. The contract also
    /// states the invariant of every table.
    pub fn symbol_of(&self, letter: u8) -> Option<u32>
        ensures found { IfSome result (λ symbol. slice_get self.now.letters symbol ≡ Some letter) }
        ensures none { IfNone result (¬ Contains self.now.letters letter) }
        ensures valid { IsTable self.now }
    {
        place_of(self.letters.as_slice(), letter)
    }
}
