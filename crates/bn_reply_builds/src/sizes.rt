//! The tests whether a tape has too many symbols or a word is too long.

ghost use Rattle.std.specs.Prelude.{◌≡◌, IfOk, MatchOption};
ghost use Rattle.bn_qtable.specs.TapeWords.{tape_words_of};
ghost use Rattle.bn_network_assembly.specs.Assembled.{limits_of};
ghost use Rattle.bn_reply_builds.specs.BuildReply.{HaveRoom, IsCrowded, IsFirstLong, IsUncrowded};
ghost use Rattle.bn_reply_builds.specs.BuildReply.{crowded_line, long_word_line, tape_long_line};

use bn_lists::NoMemory;
use bn_network::MOST_SYMBOLS;
use bn_network_assembly::{TapeSymbols, Windows};
use bn_qtable::TapeWords;
use bn_quad::QuadMachine;
use bn_reply::{Reply, Status, too_long};
use std::alloc::Global;

/// A tape of a machine of quadruples with more symbols than a cell can distinguish.
#[derive(Clone, Copy)]
pub struct CrowdedTape {
    /// The tape, counted from 1.
    pub tape: u32,
    /// The number of its symbols, the blank among them.
    pub symbols: u32,
}

/// The first tape with too many symbols; `None` exactly if there is none.
pub fn find_crowded(machine: &QuadMachine) -> Option<CrowdedTape>
    ensures { MatchOption result (IsUncrowded machine.now) (λ found. IsCrowded machine.now found.tape found.symbols) }
{
    for tape in 1..4 {
        let symbols = machine.symbols(tape);
        if symbols > MOST_SYMBOLS {
            return Some(CrowdedTape { tape, symbols });
        }
    }
    None
}

/// The answer that a tape has too many symbols.
pub fn too_crowded(alloc: Global, crowded: CrowdedTape) -> Result<Reply, NoMemory>
    ensures status { IfOk result (λ r. r.status ≡ Status.Size) }
    ensures text { IfOk result (λ r. r.text.items ≡ crowded_line crowded.tape crowded.symbols) }
{
    let CrowdedTape { tape, symbols } = crowded;
    Ok(Reply {
        text: format!(in alloc; "size: symbols {tape} {symbols}\n")?.into_bytes(),
        status: Status::Size,
    })
}

// A word that is longer than its tape's right side.
#[derive(Clone, Copy)]
pub(crate) struct LongWord {
    // The tape, counted from 1.
    pub(crate) tape: u32,
    // The number of letters of the word.
    pub(crate) letters: usize,
}

// The first tape with such a word; `None` exactly if there is none.
pub(crate) fn find_long(symbols: &TapeSymbols<'_>, windows: &Windows) -> Option<LongWord>
    ensures { MatchOption result
        (HaveRoom (limits_of windows.now) symbols.now.one.now symbols.now.two.now symbols.now.three.now)
        (λ found. IsFirstLong (limits_of windows.now) symbols.now.one.now symbols.now.two.now symbols.now.three.now
        found.tape found.letters) }
{
    let (one, two, three) = (symbols.one.len(), symbols.two.len(), symbols.three.len());
    if one > windows.right1 as usize {
        Some(LongWord {
            tape: 1,
            letters: one,
        })
    } else if two > windows.right2 as usize {
        Some(LongWord {
            tape: 2,
            letters: two,
        })
    } else if three > windows.right3 as usize {
        Some(LongWord {
            tape: 3,
            letters: three,
        })
    } else {
        None
    }
}

// The answer that a word is too long.
pub(crate) fn word_too_long(
    alloc: Global,
    words: &TapeWords,
    long: LongWord,
) -> Result<Reply, NoMemory>
    ensures status { IfOk result (λ r. r.status ≡ Status.Size) }
    ensures text { IfOk result (λ r. r.text.items ≡ long_word_line (tape_words_of words.now) long.tape long.letters) }
{
    match words {
        TapeWords::One(_) => too_long(alloc, long.letters),
        TapeWords::Three(_, _, _) => tape_too_long(alloc, long),
    }
}

// The same by its tape.
fn tape_too_long(alloc: Global, long: LongWord) -> Result<Reply, NoMemory>
    ensures status { IfOk result (λ r. r.status ≡ Status.Size) }
    ensures text { IfOk result (λ r. r.text.items ≡ tape_long_line long.tape long.letters) }
{
    let LongWord { tape, letters } = long;
    Ok(Reply {
        text: format!(in alloc; "size: word {tape} needs {letters}\n")?.into_bytes(),
        status: Status::Size,
    })
}
