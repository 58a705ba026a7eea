//! From bytes, a word and a window to a circuit, or to the answer if there is none.

ghost use Rattle.std.specs.Prelude.{◌≡◌, ◌≤◌, length, IfOk};
ghost use Rattle.bn_machine.specs.Machine.{Program};
ghost use Rattle.bn_bennett.specs.Translation.{IsTranslation};
ghost use Rattle.bn_control.specs.Controlled.{IsWithinLimits};
ghost use Rattle.bn_network.specs.Limits.{AreSmall};
ghost use Rattle.bn_network.specs.Starts.{AreInputs, words_on};
ghost use Rattle.bn_network_assembly.specs.Assembled.{IsWordOf, limits_of};
ghost use Rattle.bn_reply_boards.specs.Opened.{IsOpenedBoard, IsOpenedInput, IsOpenedMachine, IsOpenedWindow};
ghost use Rattle.bn_reply_relations.specs.Windows.{large_line};

use bn_bennett::{Translated, translate};
use bn_board::{Board, flatten};
use bn_lists::NoMemory;
use bn_network_assembly::{AssembleRefusal, TapeSymbols, Windows, assemble_words};
use bn_quad::Uniform;
use bn_reply::{
    Judged, OpenedTable, OpenedWord, Reply, Status, judge_table, open_table, open_word, too_long,
};
use bn_table::Table;
use std::alloc::Global;

/// What bytes and a word are opened as, or the answer if they cannot be.
#[derive(Drop)]
pub enum OpenedMachine {
    /// The bytes' table, whose machine is in standard form; this machine's translation; and the symbols of the word.
    Made(Table, Translated, Vec<u32>),
    /// The answer if there is no table, its machine is not in standard form, or the word has another letter.
    Refused(Reply),
}

/// What bytes, a word and a window are opened as, or the answer if they cannot be.
#[derive(Drop)]
pub enum OpenedInput {
    /// The bytes' table, its machine's translation, and the circuit of the word's symbols in the window, at its start.
    Made(Table, Translated, Board),
    /// The answer if there is no machine and word, the word is too long, or the circuit would have too many elements.
    Refused(Reply),
}

/// A circuit of a given translation, or the answer if there is none.
#[derive(Drop)]
pub enum OpenedWindow {
    /// The circuit at its start.
    Made(Board),
    /// The answer if the circuit would have too many elements.
    Refused(Reply),
}

/// Reads the bytes as a table, whose machine is translated if it is in standard form, and a word of its letters.
pub fn open_machine(alloc: Global, word: &[u8], bytes: &[u8]) -> Result<OpenedMachine, NoMemory>
    ensures { IfOk result (IsOpenedMachine bytes.now word.now) }
{
    let table = match open_table(alloc, bytes)? {
        OpenedTable::Refused(reply) => return Ok(OpenedMachine::Refused(reply)),
        OpenedTable::Read(table) => table,
    };
    let translated = match judge_table(alloc, &table)? {
        Judged::Refused(reply) => return Ok(OpenedMachine::Refused(reply)),
        Judged::Standard(standard) => translate(alloc, &standard)?,
    };
    match open_word(alloc, &table, word)? {
        OpenedWord::Refused(reply) => Ok(OpenedMachine::Refused(reply)),
        OpenedWord::Symbols(symbols) => Ok(OpenedMachine::Made(table, translated, symbols)),
    }
}

/// Opens bytes and a word as `open_machine` does, and makes their circuit in a window, at its start; or gives the
/// answer if the word is too long for the window, or else the circuit would have too many elements.
pub fn open_input(
    alloc: Global,
    word: &[u8],
    windows: &Windows,
    bytes: &[u8],
) -> Result<OpenedInput, NoMemory>
    requires { AreSmall (limits_of windows.now) }
    ensures { IfOk result (IsOpenedInput bytes.now word.now (limits_of windows.now)) }
{
    match open_machine(alloc, word, bytes)? {
        OpenedMachine::Refused(reply) => Ok(OpenedInput::Refused(reply)),
        OpenedMachine::Made(table, translated, symbols) => {
            if symbols.len() > windows.right1 as usize {
                return Ok(OpenedInput::Refused(too_long(alloc, symbols.len())?));
            }
            match open_window(alloc, &translated, symbols.as_slice(), windows)? {
                OpenedWindow::Refused(reply) => Ok(OpenedInput::Refused(reply)),
                OpenedWindow::Made(board) => Ok(OpenedInput::Made(table, translated, board)),
            }
        }
    }
}

/// The circuit of a translation's machine for a word of these symbols, which fits, and a window, at its start; or the
/// answer if the circuit would have too many elements.
pub fn open_window(
    alloc: Global,
    translated: &Translated,
    symbols: &[u32],
    windows: &Windows,
) -> Result<OpenedWindow, NoMemory>
    requires within { IsWithinLimits translated.now.machine }
    requires word { IsWordOf translated.now.machine symbols.now }
    requires windows { AreSmall (limits_of windows.now) }
    requires fits { length symbols.now ≤ (limits_of windows.now).right }
    ensures { IfOk result (λ opened. (p : Program) → IsTranslation p translated.now
        → IsOpenedWindow p (limits_of windows.now) symbols.now translated.now opened) }
{
    let words = TapeSymbols {
        one: symbols,
        two: &[],
        three: &[],
    };
    open_board(alloc, translated.machine(), &words, windows)
}

/// The circuit of any uniform machine of quadruples for words of these symbols on the three tapes, which fit, and a
/// window, at its start; or the answer if the circuit would have too many elements.
pub fn open_board(
    alloc: Global,
    machine: &Uniform,
    words: &TapeSymbols<'_>,
    windows: &Windows,
) -> Result<OpenedWindow, NoMemory>
    requires within { IsWithinLimits machine.now }
    requires windows { AreSmall (limits_of windows.now) }
    requires words { AreInputs machine.now (limits_of windows.now)
        words.now.one.now words.now.two.now words.now.three.now }
    ensures { IfOk result (IsOpenedBoard machine.now (limits_of windows.now)
        (words_on machine.now words.now.one.now words.now.two.now words.now.three.now)) }
{
    match assemble_words(alloc, machine, windows, words) {
        Ok(assembly) => {
            let board = flatten(alloc, &assembly)?;
            Ok(OpenedWindow::Made(board))
        }
        Err(AssembleRefusal::WordOutside { .. }) => unreachable!(),
        Err(AssembleRefusal::Elements { count }) => {
            Ok(OpenedWindow::Refused(too_large(alloc, count)?))
        }
        Err(AssembleRefusal::NoMemory) => Err(NoMemory),
    }
}

// The answer that a circuit would have this many elements, which are too many.
fn too_large(alloc: Global, elements: u64) -> Result<Reply, NoMemory>
    ensures status { IfOk result (λ r. r.status ≡ Status.Size) }
    ensures text { IfOk result (λ r. r.text.items ≡ large_line elements) }
{
    Ok(Reply {
        text: format!(in alloc; "size: elements {elements}\n")?.into_bytes(),
        status: Status::Size,
    })
}
