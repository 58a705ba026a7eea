//! Reading and writing the text of a table.

ghost use Rattle.std.specs.Prelude.{◌≡◌, ◌≤◌, ◌<◌, ◌++◌, IfOk, IfErr, OnOk, length};
ghost use Rattle.bn_csv.specs.Entries.{entries_of};
ghost use Rattle.bn_csv.specs.Lines.{line_of, lines_of};
ghost use Rattle.bn_rsm.specs.Entry.{AreReadAs, move_entry, entries_by, lines_named, states_named};
ghost use Rattle.bn_rsm.specs.Reading.{IsMoveTableRefusal, ReadsMoves};
ghost use Rattle.bn_rsm.specs.Writing.{IsTable};

use crate::draft::{into_machine, new_draft};
use crate::table_refusal::RsmTableRefusal;
use crate::{Rsm, RsmMove};
use bn_csv::{EntryWriter, read_entries};
use bn_lists::NoMemory;
use itoa::Buffer;
use std::alloc::Global;

/// Reads the bytes of a table: csv records without a header, each with a state, an input port, the next state and an
/// output port, numbers from 1 to `MOST_COUNT`. Returns the machine of the bytes, if they have one, with as many
/// states and ports as the moves name. A refusal other than `NoMemory` is the only one that the bytes have.
pub fn read_rsm(alloc: Global, bytes: &[u8]) -> Result<Rsm, RsmTableRefusal>
    ensures ok { IfOk result (ReadsMoves bytes.now) }
    ensures refused { IfErr result (IsMoveTableRefusal bytes.now) }
{
    let draft = read_entries(alloc, bytes, new_draft(alloc))?;
    into_machine(alloc, draft)
}

// Writes the entry of a move.
fn write_move(writer: &mut EntryWriter, step: &RsmMove) -> Result<(), NoMemory>
    ensures { OnOk result (writer.new ≡ writer.old ++ line_of (move_entry step.now)) }
{
    let mut state = Buffer::new();
    let mut line = Buffer::new();
    let mut next = Buffer::new();
    let mut out = Buffer::new();
    writer.write_entry(&[
        state.format(u64::from(step.state) + 1).as_bytes(),
        line.format(u64::from(step.line) + 1).as_bytes(),
        next.format(u64::from(step.next) + 1).as_bytes(),
        out.format(u64::from(step.out) + 1).as_bytes(),
    ])
}

/// The text of a machine: for each move, in order, a line with its four numbers, counted from 1. The text is read as
/// the same machine if the machine has 1 to `MOST_ENTRIES` moves and exactly as many states and ports as they name, at
/// most `MOST_COUNT` of each.
pub fn write_rsm(alloc: Global, rsm: &Rsm) -> Result<Vec<u8>, NoMemory>
    ensures text { IfOk result (λ text. text.items ≡ lines_of (entries_by rsm.now.moves)) }
    ensures read_back { IfOk result (λ text. IsTable rsm.now → ReadsMoves text.items rsm.now) }
{
    write_moves(alloc, rsm.moves())
}

/// The text of some moves: for each, in order, a line with its four numbers, counted from 1.
pub fn write_moves(alloc: Global, moves: &[RsmMove]) -> Result<Vec<u8>, NoMemory>
    ensures { IfOk result (λ text. text.items ≡ lines_of (entries_by moves.now)) }
{
    let mut writer = EntryWriter::new(alloc);
    for step in moves {
        write_move(&mut writer, step)?;
    }
    writer.into_text()
}
