//! The text of a tape.

ghost use Rattle.std.specs.Prelude.{◌≡◌, ℕ, List, ◌+◌, ◌<◌, ◌≤◌, ◌^◌, ◌++◌, pos, ◌+ℤ◌, ◌-ℤ◌, ◌≤ℤ◌, length, max};
ghost use Rattle.std.specs.Prelude.{OnOk};
ghost use Rattle.bn_machine.specs.Tape.{Tape as Endless, cell};
ghost use Rattle.bn_machine.specs.Window.{IsWindowed};
ghost use Rattle.bn_reply_traces.specs.Extents.{symbols_from};
ghost use Rattle.bn_reply_traces.specs.MomentText.{letter_text, names_text};
ghost use Rattle.bn_reply_traces.specs.Stages.{AreBelow, IsWithin, StandsFor, shown_text};

use crate::extent::Extent;
use bn_base::push_u64;
use bn_lists::NoMemory;
use bn_machine::Tape;
use bn_reply::{push, push_position};
use bn_reply_machines::TapeNames;
use bn_table::Table;

/// The names of symbols. Clauses see the name of each symbol, and how many symbols there are.
pub(crate) trait Spells {
    /// The bytes of a symbol, by its number.
    ghost name: { Self → ℕ → List ℕ };

    /// The number of symbols that have a name.
    ghost symbols: { Self → ℕ };

    /// Appends the name of a symbol.
    fn push_symbol(&self, text: &mut Vec<u8>, symbol: u32) -> Result<(), NoMemory>
        requires { symbol < symbols self.now }
        ensures { OnOk result (text.new.items ≡ text.old.items ++ name self.now symbol) };
}

impl Spells for Table {
    ghost name = { letter_text };

    ghost symbols = { λ t. t.machine.symbols };

    fn push_symbol(&self, text: &mut Vec<u8>, symbol: u32) -> Result<(), NoMemory> {
        text.push(self.letter(symbol))?;
        Ok(())
    }
}

impl<'a> Spells for TapeNames<'a> {
    ghost use Rattle.std.specs.Prelude.{length};
    ghost use Rattle.bn_reply_traces.specs.ConfigurationText.{name_in};

    ghost name = { name_in };

    ghost symbols = { λ names. length names };

    fn push_symbol(&self, text: &mut Vec<u8>, symbol: u32) -> Result<(), NoMemory> {
        push(text, self.name(symbol))
    }
}

// Appends the text of a tape that continues with the letters of the word beyond its right end: the positions of the
// first cell that is shown and of the head, how many cells are shown, and their symbols.
pub(crate) fn push_tape<L: Spells>(
    text: &mut Vec<u8>,
    names: &L,
    tape: &Tape,
    word: &[u32],
    extent: Extent,
) -> Result<(), NoMemory>
    requires few { length word.now < 2 ^ 62 }
    requires within { IsWithin tape.now word.now extent }
    requires below { AreBelow (L.symbols names.now) tape.now word.now }
    ensures { (t : Endless) (count : ℕ) → StandsFor tape.now word.now t →
        (extent.first +ℤ pos count) ≡ (extent.last +ℤ pos 1) → OnOk result (text.new.items
        ≡ text.old.items ++ shown_text (L.name names.now) t extent.first count) }
{
    let head = tape.head();
    let count = extent.cells();
    push(text, b" from ")?;
    push_position(text, extent.first)?;
    push(text, b" head ")?;
    push_position(text, head)?;
    push(text, b" cells ")?;
    push_u64(text, count)?;
    push(text, b":")?;
    push_cells(text, names, tape, word, extent.first, count)
}

// Appends the symbols of this many cells from a position on, a space before each.
fn push_cells<L: Spells>(
    text: &mut Vec<u8>,
    names: &L,
    tape: &Tape,
    word: &[u32],
    first: i64,
    count: u64,
) -> Result<(), NoMemory>
    requires windowed { IsWindowed tape.now }
    requires few { length word.now < 2 ^ 62 }
    requires begins { (pos 0 -ℤ pos tape.now.left) ≤ℤ first }
    requires ends { (first +ℤ pos count) ≤ℤ pos (max tape.now.right (length word.now) + 1) }
    requires below { AreBelow (L.symbols names.now) tape.now word.now }
    ensures { (t : Endless) → StandsFor tape.now word.now t → OnOk result (text.new.items
        ≡ text.old.items ++ names_text (L.name names.now) (symbols_from (cell t) first count)) }
{
    for index in 0..count {
        push(text, b" ")?;
        names.push_symbol(text, symbol_at(tape, word, first + index as i64))?;
    }
    Ok(())
}

// The symbol at a position in the window, or beyond its right end on the word.
fn symbol_at(tape: &Tape, word: &[u32], position: i64) -> u32
    requires begins { (pos 0 -ℤ pos tape.now.left) ≤ℤ position }
    requires ends { position ≤ℤ pos (max tape.now.right (length word.now)) }
    ensures value { (t : Endless) → StandsFor tape.now word.now t → result ≡ cell t position }
    ensures below { (bound : ℕ) → AreBelow bound tape.now word.now → result < bound }
{
    match tape.symbol(position) {
        Some(symbol) => symbol,
        None => word[position as usize - 1],
    }
}
