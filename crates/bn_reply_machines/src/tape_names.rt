//! The symbols of a tape of a machine of quadruples by their names, and words of their letters.

ghost use Rattle.std.specs.Prelude.{◌≡◌, ◌↔◌, ◌≤◌, ℕ, List, [], ◌∷◌, IfOk, IfNone, IfSome, IsTrue, MatchOption};
ghost use Rattle.std.specs.Prelude.{◌<◌, ◌==◌, Contains, Some, length, map, position, slice_get};
ghost use Rattle.bn_quad.specs.Names.{symbols_on};
ghost use Rattle.bn_qtable.specs.Rows.{counts_of};
ghost use Rattle.bn_qtable.specs.TapeWords.{Names, comma, names_of_word, tape_word_of};
ghost use Rattle.bn_reply.specs.Letters.{IsSymbolOf};
ghost use Rattle.bn_reply.specs.Words.{IsLetterOf};
ghost use Rattle.bn_reply_machines.specs.NamedWords.{IsNameOn, IsNamedSoFar, IsSymbolNamed};
ghost use Rattle.bn_reply_machines.specs.QuadReply.{lettered};
ghost use Rattle.bn_reply_machines.specs.Opened.{IsAlphabet, IsNaming, IsSpelling};

use bn_lists::NoMemory;
use bn_qtable::TapeWord;
use bn_quad::{QuadMachine, QuadNames};
use std::alloc::Global;
use std::marker::Model;

/// The blank's letter.
const BLANK: u8 = b'_';

/// The separator between the names of a word.
const COMMA: u8 = b',';

/// The result of reading a word on a tape.
#[derive(Drop)]
pub enum Spelling {
    /// The symbols of its letters or names, none of which is the blank.
    Symbols(Vec<u32>),
    /// The first place, counted from 1, that has no letter or name of the tape, or has the blank.
    Foreign { place: usize },
}

/// The names of the symbols of one tape. Contracts see the names.
#[derive(Drop)]
pub struct TapeNames<'a> {
    names: &'a QuadNames,
    tape: u32,
    symbols: u32,
}

impl<'a> Model for TapeNames<'a> {
    ghost use Rattle.std.specs.Prelude.{◌≡◌, ◌≤◌, ℕ, List, length};
    ghost use Rattle.bn_quad.specs.Names.{symbols_on};

    ghost Value = { List (List ℕ) };

    ghost view = { λ n. symbols_on n.names.now n.tape };

    ghost invariant = { λ n. (1 ≤ n.tape) × (n.tape ≤ 3) × (n.symbols ≡ length (symbols_on n.names.now n.tape)) };
}

impl<'a> TapeNames<'a> {
    /// The names of a tape from 1 to 3 of a machine that has as many symbols as there are names.
    pub fn of(machine: &QuadMachine, names: &'a QuadNames, tape: u32) -> TapeNames<'a>
        requires first { 1 ≤ tape }
        requires last { tape ≤ 3 }
        requires counted { machine.now.symbols ≡ counts_of names.now }
        ensures { result ≡ symbols_on names.now tape }
    {
        TapeNames {
            names,
            tape,
            symbols: machine.symbols(tape),
        }
    }

    /// Reads a word in the letters of the tape: the symbols of its letters, or the first place without one.
    pub fn spell(&self, alloc: Global, word: &[u8]) -> Result<Spelling, NoMemory>
        requires { IsAlphabet self.now }
        ensures { IfOk result (IsSpelling self.now word.now) }
    {
        let mut symbols = Vec::new(alloc);
        for (index, byte) in word.iter().enumerate() {
            let Some(symbol) = self.symbol_of(*byte) else {
                return Ok(Spelling::Foreign { place: index + 1 });
            };
            symbols.push(symbol)?;
        }
        Ok(Spelling::Symbols(symbols))
    }

    /// Reads a word by the names of its symbols: the symbols, or the first place whose name is not that of a symbol, or
    /// is the blank's.
    pub fn spell_word(&self, alloc: Global, word: TapeWord) -> Result<Spelling, NoMemory>
        requires { IsAlphabet self.now }
        ensures { IfOk result (IsNaming self.now (names_of_word (tape_word_of word.entry))) }
    {
        match word {
            TapeWord::Letters(bytes) => self.spell_bytes(alloc, bytes),
            TapeWord::Names(bytes) => self.spell_names(alloc, bytes),
        }
    }

    // The same for a word of names of one byte.
    fn spell_bytes(&self, alloc: Global, bytes: &[u8]) -> Result<Spelling, NoMemory>
        requires { IsAlphabet self.now }
        ensures { IfOk result (IsNaming self.now (map (λ byte. byte ∷ []) bytes.now)) }
    {
        let mut symbols = Vec::new(alloc);
        for byte in bytes {
            let Some(symbol) = self.symbol_named(&[*byte]) else {
                return Ok(Spelling::Foreign {
                    place: symbols.len() + 1,
                });
            };
            symbols.push(symbol)?;
        }
        Ok(Spelling::Symbols(symbols))
    }

    // The same for a word of names with a comma between two.
    fn spell_names(&self, alloc: Global, bytes: &[u8]) -> Result<Spelling, NoMemory>
        requires { IsAlphabet self.now }
        ensures { IfOk result (IsNaming self.now (names_of_word (Names bytes.now))) }
    {
        let mut symbols = Vec::new(alloc);
        if bytes.is_empty() {
            return Ok(Spelling::Symbols(symbols));
        }
        let mut left = bytes;
        while let Some(comma) = first_comma(left) {
            let Some(symbol) = self.symbol_named(&left[..comma]) else {
                return Ok(Spelling::Foreign {
                    place: symbols.len() + 1,
                });
            };
            symbols.push(symbol)?;
            left = &left[comma + 1..];
        }
        self.spell_last(symbols, left)
    }

    // The same for a word that has this name after those of some symbols.
    fn spell_last(&self, before: Vec<u32>, name: &[u8]) -> Result<Spelling, NoMemory>
        requires { IsAlphabet self.now }
        ensures { (word : List (List ℕ)) → IsNamedSoFar self.now word before.items (name.now ∷ [])
            → IfOk result (IsNaming self.now word) }
    {
        let mut symbols = before;
        let Some(symbol) = self.symbol_named(name) else {
            return Ok(Spelling::Foreign {
                place: symbols.len() + 1,
            });
        };
        symbols.push(symbol)?;
        Ok(Spelling::Symbols(symbols))
    }

    // The symbol with a name; `None` exactly if no symbol of the tape has the name, or it is the blank's.
    fn symbol_named(&self, name: &[u8]) -> Option<u32>
        requires { IsAlphabet self.now }
        ensures { MatchOption result (¬ IsNameOn self.now name.now) (IsSymbolNamed self.now name.now) }
    {
        if is_byte(name, BLANK) {
            return None;
        }
        self.find_name(name)
    }

    // The number of the symbol with a name; `None` exactly if no symbol of the tape has the name.
    fn find_name(&self, name: &[u8]) -> Option<u32>
        ensures found { IfSome result (λ s. slice_get self.now s ≡ Some name.now) }
        ensures none { IfNone result (¬ Contains self.now name.now) }
    {
        for symbol in 0..self.symbols {
            if self.names.symbol(self.tape, symbol) == name {
                return Some(symbol);
            }
        }
        None
    }

    /// The name of a symbol, counted from 0.
    pub fn name(&self, symbol: u32) -> &[u8]
        requires { symbol < length self.now }
        ensures { slice_get self.now symbol ≡ Some result.now }
    {
        self.names.symbol(self.tape, symbol)
    }

    // The symbol of a byte; `None` exactly if it is no letter of the tape, or is the blank's.
    fn symbol_of(&self, byte: u8) -> Option<u32>
        requires { IsAlphabet self.now }
        ensures { MatchOption result (¬ IsLetterOf (lettered self.now) byte) (IsSymbolOf (lettered self.now) byte) }
    {
        if byte == BLANK {
            return None;
        }
        self.find(byte)
    }

    // The number of the symbol whose name is this byte alone; `None` exactly if there is none.
    fn find(&self, byte: u8) -> Option<u32>
        ensures found { IfSome result (λ s. slice_get (lettered self.now).letters s ≡ Some byte) }
        ensures none { IfNone result (¬ Contains (lettered self.now).letters byte) }
    {
        for symbol in 0..self.symbols {
            if is_byte(self.names.symbol(self.tape, symbol), byte) {
                return Some(symbol);
            }
        }
        None
    }
}

// Whether a name is this byte alone.
fn is_byte(name: &[u8], byte: u8) -> bool
    ensures { IsTrue result ↔ (name.now ≡ byte ∷ []) }
{
    match name {
        [one] => *one == byte,
        _ => false,
    }
}

// The place of the first comma, counted from 0.
fn first_comma(bytes: &[u8]) -> Option<usize>
    ensures place { result ≡ position (λ byte. byte == comma) bytes.now }
    ensures within { IfSome result (λ place. place < length bytes.now) }
    ensures none { IfNone result (¬ Contains bytes.now comma) }
{
    bytes.iter().position(|byte| *byte == COMMA)
}
