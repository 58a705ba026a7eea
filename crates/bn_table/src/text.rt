//! Reading and writing the text of a table.

ghost use Rattle.std.specs.Prelude.{◌≡◌, ◌<◌, ◌++◌, ◌∷◌, [], true, ◌≢◌, Some, IfOk, IfErr, OnOk, OnErr};
ghost use Rattle.bn_csv.specs.Entries.{entries_of};
ghost use Rattle.bn_csv.specs.Lines.{is_plain_entry, line_of, lines_of};
ghost use Rattle.bn_machine.specs.Machine.{IsInRange};
ghost use Rattle.bn_table.specs.Entry.{HasForms, entry_of, said};
ghost use Rattle.bn_table.specs.Faults.{table_fault};
ghost use Rattle.bn_table.specs.Reading.{Reads};
ghost use Rattle.bn_table.specs.Rows.{IsTable, quintuple_entry, rows_of};
ghost use Rattle.bn_table.specs.declared.refusal.TableRefusal.TheVariants as refusal;

use crate::draft::{into_table, new_draft};
use crate::refusal::TableRefusal;
use crate::table::Table;
use bn_csv::{EntryWriter, read_entries};
use bn_lists::NoMemory;
use bn_machine::{Quint, Shift, text_of_shift};
use std::alloc::Global;

/// Reads the bytes of a table: csv records without a header, each with a state's name, the letter read, the letter
/// written, `-`, `0` or `+`, and the next state's name. Returns the only reading of the bytes. Each refusal but
/// `NoMemory` is the first fault of the entries.
pub fn read_quints(alloc: Global, bytes: &[u8]) -> Result<Table, TableRefusal>
    ensures ok { IfOk result (Reads bytes.now) }
    ensures refused { IfErr result (λ e. e ≢ refusal.NoMemory → table_fault (entries_of bytes.now) ≡ Some e) }
{
    let draft = read_entries(alloc, bytes, new_draft(alloc)?)?;
    into_table(draft)
}

// Writes an entry of five fields that need no quotes.
fn write_fields<'a>(
    writer: &mut EntryWriter,
    state: &'a [u8],
    read: &'a [u8],
    write: &'a [u8],
    shift: &'a [u8],
    next: &'a [u8],
) -> Result<(), NoMemory>
    requires { is_plain_entry (state.now ∷ read.now ∷ write.now ∷ shift.now ∷ next.now ∷ []) ≡ true }
    ensures written { OnOk result (writer.new
        ≡ writer.old ++ line_of (state.now ∷ read.now ∷ write.now ∷ shift.now ∷ next.now ∷ [])) }
    ensures lost { OnErr result (writer.new ≡ []) }
{
    writer.write_entry(&[state, read, write, shift, next])
}

/// Writes the entry of a quintuple, with the names of its states and the letters of its symbols, each in the form that
/// tables require. After `NoMemory` the writer's text is empty.
pub fn write_row(
    writer: &mut EntryWriter,
    state: &[u8],
    read: u8,
    write: u8,
    shift: Shift,
    next: &[u8],
) -> Result<(), NoMemory>
    requires { HasForms (said state.now read write shift next.now) }
    ensures written { OnOk result (writer.new
        ≡ writer.old ++ line_of (entry_of (said state.now read write shift next.now))) }
    ensures lost { OnErr result (writer.new ≡ []) }
{
    write_fields(writer, state, &[read], &[write], text_of_shift(shift), next)
}

// Writes the entry of a quintuple of a table.
fn write_quint(writer: &mut EntryWriter, table: &Table, quint: &Quint) -> Result<(), NoMemory>
    requires table { IsTable table.now }
    requires range { IsInRange table.now.machine.states table.now.machine.symbols quint.now }
    ensures { OnOk result (writer.new
        ≡ writer.old ++ line_of (quintuple_entry table.now.names table.now.letters quint.now)) }
{
    write_row(
        writer,
        table.state_name(quint.state),
        table.letter(quint.read),
        table.letter(quint.write),
        quint.shift,
        table.state_name(quint.next),
    )
}

/// The text of a table: for each quintuple a line with its five fields, in order. Reading it gives the table.
pub fn write_quints(alloc: Global, table: &Table) -> Result<Vec<u8>, NoMemory>
    ensures text { IfOk result (λ text. text.items ≡ lines_of (rows_of table.now)) }
    ensures read_back { IfOk result (λ text. Reads text.items table.now) }
{
    let mut writer = EntryWriter::new(alloc);
    for quint in table.machine().quints() {
        write_quint(&mut writer, table, quint)?;
    }
    writer.into_text()
}
