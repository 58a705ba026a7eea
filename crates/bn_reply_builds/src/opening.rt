//! From bytes, words on the tapes and a window to the circuit of a machine of quadruples, or to the answer if there is
//! none.

ghost use Rattle.std.specs.Prelude.{IfOk};
ghost use Rattle.bn_qtable.specs.TapeWords.{tape_words_of};
ghost use Rattle.bn_network.specs.Limits.{AreSmall};
ghost use Rattle.bn_network_assembly.specs.Assembled.{limits_of};
ghost use Rattle.bn_reply_builds.specs.Buildable.{AreLettersOf, IsBuildable};
ghost use Rattle.bn_reply_builds.specs.Opened.{IsOpenedBuild, IsOpenedSized};

use crate::sizes::{find_crowded, find_long, too_crowded, word_too_long};
use bn_board::Board;
use bn_lists::NoMemory;
use bn_network_assembly::{TapeSymbols, Windows};
use bn_qtable::TapeWords;
use bn_quad::{QuadNames, Uniform};
use bn_reply::Reply;
use bn_reply_boards::{OpenedWindow, open_board};
use bn_reply_machines::{OpenedUniform, SpelledWords, open_uniform, spell_words};
use std::alloc::Global;

/// What bytes, words on the tapes and a window are opened as, or the answer if they cannot be.
#[derive(Drop)]
pub enum OpenedBuild {
    /// The machine, the names of its states and symbols, and its circuit in the window, at its start with the words.
    Made(Uniform, QuadNames, Board),
    /// The answer if there is no uniform machine, a word has another name, a tape has too many symbols, a word is too
    /// long, or the circuit would have too many elements.
    Refused(Reply),
}

/// Reads the bytes as a table of quadruples, tests whether its machine is deterministic, reversible and uniform, spells
/// the words by the names of its symbols, and makes its circuit in the window, at its start with them. A refusal names
/// the first thing that is wrong: with the bytes, the machine, the words' names, the tapes' symbols, the words'
/// lengths, the number of elements.
pub fn open_build(
    alloc: Global,
    words: &TapeWords,
    windows: &Windows,
    bytes: &[u8],
) -> Result<OpenedBuild, NoMemory>
    requires { AreSmall (limits_of windows.now) }
    ensures { IfOk result (IsOpenedBuild (tape_words_of words.now) (limits_of windows.now) bytes.now) }
{
    let (machine, names) = match open_uniform(alloc, bytes)? {
        OpenedUniform::Refused(reply) => return Ok(OpenedBuild::Refused(reply)),
        OpenedUniform::Read(machine, names) => (machine, names),
    };
    let (one, two, three) = match spell_words(alloc, machine.machine(), &names, words)? {
        SpelledWords::Refused(reply) => return Ok(OpenedBuild::Refused(reply)),
        SpelledWords::Symbols(one, two, three) => (one, two, three),
    };
    let symbols = TapeSymbols {
        one: one.as_slice(),
        two: two.as_slice(),
        three: three.as_slice(),
    };
    match open_sized(alloc, &machine, words, &symbols, windows)? {
        OpenedWindow::Refused(reply) => Ok(OpenedBuild::Refused(reply)),
        OpenedWindow::Made(board) => Ok(OpenedBuild::Made(machine, names, board)),
    }
}

// The same for a machine that is read and words of these symbols.
fn open_sized(
    alloc: Global,
    machine: &Uniform,
    words: &TapeWords,
    symbols: &TapeSymbols<'_>,
    windows: &Windows,
) -> Result<OpenedWindow, NoMemory>
    requires machine { IsBuildable machine.now }
    requires letters { AreLettersOf machine.now symbols.now.one.now symbols.now.two.now symbols.now.three.now }
    requires windows { AreSmall (limits_of windows.now) }
    ensures { IfOk result (IsOpenedSized (tape_words_of words.now) machine.now (limits_of windows.now)
        symbols.now.one.now symbols.now.two.now symbols.now.three.now) }
{
    if let Some(crowded) = find_crowded(machine.machine()) {
        return Ok(OpenedWindow::Refused(too_crowded(alloc, crowded)?));
    }
    if let Some(long) = find_long(symbols, windows) {
        return Ok(OpenedWindow::Refused(word_too_long(alloc, words, long)?));
    }
    open_board(alloc, machine, symbols, windows)
}
