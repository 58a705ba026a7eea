//! Words on the tapes of a machine of quadruples, by the names of their symbols.

ghost use Rattle.std.specs.Prelude.{◌≡◌, ◌≤◌, IfOk};
ghost use Rattle.bn_quad.specs.Names.{symbols_on};
ghost use Rattle.bn_qtable.specs.Rows.{counts_of};
ghost use Rattle.bn_qtable.specs.TapeWords.{names_of_word, names_on, tape_word_of, tape_words_of};
ghost use Rattle.bn_reply_machines.specs.Opened.{AreAlphabets, AreSpelledWords, IsSpelledWord};
ghost use Rattle.bn_reply_machines.specs.WordsReply.{unnamed_line};

use crate::opening::foreign_on_tape;
use crate::tape_names::{Spelling, TapeNames};
use bn_lists::NoMemory;
use bn_qtable::{TapeWord, TapeWords};
use bn_quad::{QuadMachine, QuadNames};
use bn_reply::{Reply, Status, foreign_letter};
use std::alloc::Global;

/// The symbols of a word on a tape, or the answer to another word.
#[derive(Drop)]
pub enum SpelledWord {
    /// The symbols, none of which is the blank.
    Symbols(Vec<u32>),
    /// The answer if a name of the word is not that of a symbol, or is the blank's.
    Refused(Reply),
}

/// The symbols of the words on the tapes, or the answer to other words.
#[derive(Drop)]
pub enum SpelledWords {
    /// The symbols of each tape's word, tape 1 first, none of which is the blank.
    Symbols(Vec<u32>, Vec<u32>, Vec<u32>),
    /// The answer if a name of a word is not that of a symbol of its tape, or is the blank's.
    Refused(Reply),
}

/// The symbols of the words on the tapes, by the names of a machine's symbols; or the answer to the first tape whose
/// word has a name that is not allowed.
pub fn spell_words(
    alloc: Global,
    machine: &QuadMachine,
    names: &QuadNames,
    words: &TapeWords,
) -> Result<SpelledWords, NoMemory>
    requires counted { machine.now.symbols ≡ counts_of names.now }
    requires alphabets { AreAlphabets names.now }
    ensures { IfOk result (AreSpelledWords (tape_words_of words.now) names.now) }
{
    let one = match spell_on(alloc, machine, names, words, 1)? {
        SpelledWord::Refused(reply) => return Ok(SpelledWords::Refused(reply)),
        SpelledWord::Symbols(symbols) => symbols,
    };
    let two = match spell_on(alloc, machine, names, words, 2)? {
        SpelledWord::Refused(reply) => return Ok(SpelledWords::Refused(reply)),
        SpelledWord::Symbols(symbols) => symbols,
    };
    match spell_on(alloc, machine, names, words, 3)? {
        SpelledWord::Refused(reply) => Ok(SpelledWords::Refused(reply)),
        SpelledWord::Symbols(three) => Ok(SpelledWords::Symbols(one, two, three)),
    }
}

// The symbols of the word on a tape from 1 to 3.
fn spell_on(
    alloc: Global,
    machine: &QuadMachine,
    names: &QuadNames,
    words: &TapeWords,
    tape: u32,
) -> Result<SpelledWord, NoMemory>
    requires first { 1 ≤ tape }
    requires last { tape ≤ 3 }
    requires counted { machine.now.symbols ≡ counts_of names.now }
    requires alphabets { AreAlphabets names.now }
    ensures { IfOk result (IsSpelledWord (unnamed_line (tape_words_of words.now) tape) (symbols_on names.now tape)
        (names_on (tape_words_of words.now) tape)) }
{
    match TapeNames::of(machine, names, tape).spell_word(alloc, word_on(words, tape))? {
        Spelling::Symbols(symbols) => Ok(SpelledWord::Symbols(symbols)),
        Spelling::Foreign { place } => {
            Ok(SpelledWord::Refused(unnamed(alloc, words, tape, place)?))
        }
    }
}

// The word on a tape from 1 to 3.
fn word_on<'a>(words: &TapeWords<'a>, tape: u32) -> TapeWord<'a>
    requires first { 1 ≤ tape }
    requires last { tape ≤ 3 }
    ensures { names_of_word (tape_word_of result) ≡ names_on (tape_words_of words.now) tape }
{
    match words {
        TapeWords::One(word) => if tape == 1 {
            *word
        } else {
            TapeWord::Letters(b"")
        },
        TapeWords::Three(first, second, third) => match tape {
            1 => *first,
            2 => *second,
            _ => *third,
        },
    }
}

// The answer that the name at this place of the word on a tape, counted from 1, is not allowed.
fn unnamed(alloc: Global, words: &TapeWords, tape: u32, place: usize) -> Result<Reply, NoMemory>
    ensures status { IfOk result (λ r. r.status ≡ Status.Word) }
    ensures text { IfOk result (λ r. r.text.items ≡ unnamed_line (tape_words_of words.now) tape place) }
{
    match words {
        TapeWords::One(_) => foreign_letter(alloc, place),
        TapeWords::Three(_, _, _) => foreign_on_tape(alloc, tape, place),
    }
}
