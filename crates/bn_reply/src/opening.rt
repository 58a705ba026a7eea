//! The input of commands that take a table in standard form and a word of its letters: each function returns the
//! opened value, or the answer if there is none.

ghost use Rattle.std.specs.Prelude.{◌≡◌, IfOk};
ghost use Rattle.bn_table.specs.Rows.{FitsTable};
ghost use Rattle.bn_reply.specs.Lines.{foreign_line, long_line};
ghost use Rattle.bn_reply.specs.Opened.{IsJudged, IsOpenedTable, IsOpenedWord};

use crate::letters::symbol_of;
use crate::lines::{fault_text, why_text};
use crate::reply::Reply;
use crate::status::Status;
use bn_lists::NoMemory;
use bn_machine::{Standard, check};
use bn_table::{Table, read_quints};
use std::alloc::Global;

/// A table, or the answer to bytes that are not one.
#[derive(Drop)]
pub enum OpenedTable {
    /// The bytes' table.
    Read(Table),
    /// The answer if the bytes are not a table.
    Refused(Reply),
}

/// A table's machine in standard form, or the answer if it is not in that form.
#[derive(Drop)]
pub enum Judged<'a> {
    /// The machine.
    Standard(Standard<'a>),
    /// The answer if the machine is not in standard form.
    Refused(Reply),
}

/// The symbols of a word, or the answer if one of its letters is not allowed.
#[derive(Drop)]
pub enum OpenedWord {
    /// The symbols of the word's letters, none of which is the blank.
    Symbols(Vec<u32>),
    /// The answer if the word has another letter.
    Refused(Reply),
}

/// Reads the bytes as a table of quintuples.
#[tactic(auto, using(bn_table::proofs::ReadingLaws::no_fault_of))]
pub fn open_table(alloc: Global, bytes: &[u8]) -> Result<OpenedTable, NoMemory>
    ensures { IfOk result (IsOpenedTable bytes.now) }
{
    match read_quints(alloc, bytes) {
        Ok(table) => Ok(OpenedTable::Read(table)),
        Err(refusal) => Ok(OpenedTable::Refused(Reply {
            text: fault_text(alloc, refusal)?,
            status: Status::Text,
        })),
    }
}

/// Tests the standard form of a table's machine. The returned value records that the machine passed. The contract also
/// says that the machine is within the limits of tables.
pub fn judge_table(alloc: Global, table: &Table) -> Result<Judged<'_>, NoMemory>
    ensures judged { IfOk result (IsJudged table.now) }
    ensures fits { FitsTable table.now.machine }
{
    match check(alloc, table.machine()) {
        Ok(standard) => Ok(Judged::Standard(standard)),
        Err(why) => Ok(Judged::Refused(Reply {
            text: why_text(alloc, why)?,
            status: Status::Machine,
        })),
    }
}

/// Reads a word in a table's letters.
pub fn open_word(alloc: Global, table: &Table, word: &[u8]) -> Result<OpenedWord, NoMemory>
    ensures { IfOk result (IsOpenedWord table.now word.now) }
{
    let mut symbols = Vec::new(alloc);
    for (index, byte) in word.iter().enumerate() {
        let Some(symbol) = symbol_of(table, *byte) else {
            return Ok(OpenedWord::Refused(foreign_letter(alloc, index + 1)?));
        };
        symbols.push(symbol)?;
    }
    Ok(OpenedWord::Symbols(symbols))
}

/// The answer that the letter of a word at this place, counted from 1, is not allowed.
pub fn foreign_letter(alloc: Global, place: usize) -> Result<Reply, NoMemory>
    ensures status { IfOk result (λ r. r.status ≡ Status.Word) }
    ensures text { IfOk result (λ r. r.text.items ≡ foreign_line place) }
{
    Ok(Reply {
        text: format!(in alloc; "word: {place}\n")?.into_bytes(),
        status: Status::Word,
    })
}

/// The answer that a word of this many letters is too long.
pub fn too_long(alloc: Global, letters: usize) -> Result<Reply, NoMemory>
    ensures status { IfOk result (λ r. r.status ≡ Status.Size) }
    ensures text { IfOk result (λ r. r.text.items ≡ long_line letters) }
{
    Ok(Reply {
        text: format!(in alloc; "size: word needs {letters}\n")?.into_bytes(),
        status: Status::Size,
    })
}
