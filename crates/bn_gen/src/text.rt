//! The machine of k increments as the text of a table.

ghost use Rattle.std.specs.Prelude.{◌≡◌, ◌++◌, ◌*◌, ◌+◌, ◌<◌, [], IfOk, OnOk, slice_index, slice_index_or};
ghost use Rattle.bn_csv.specs.Lines.{line_of};
ghost use Rattle.bn_machine.specs.Machine.{IsInRange};
ghost use Rattle.bn_table.specs.Entry.{entry_of};
ghost use Rattle.bn_table.specs.Reading.{Reads};
ghost use Rattle.bn_table.specs.Rows.{quintuple_entry};
ghost use Rattle.bn_gen.specs.Increments.{IsRoundCount};
ghost use Rattle.bn_gen.specs.Text as text;

use crate::machine::increments;
use bn_csv::EntryWriter;
use bn_lists::NoMemory;
use bn_machine::Quint;
use bn_table::write_row;
use std::alloc::Global;

/// The name of the final state.
const FINAL: &[u8] = b"F";

/// The letters of the blank, the digit 0 and the digit 1.
const LETTERS: [u8; 3] = *b"_01";

// The name of the start state, or of a state of a round.
fn round_name(state: u32) -> &'static [u8]
    requires { state < 13 }
    ensures { result.now ≡ slice_index_or text.round_names state [] }
{
    match state {
        0 => b"S",
        1 => b"R1",
        2 => b"P1",
        3 => b"L1",
        4 => b"R2",
        5 => b"P2",
        6 => b"L2",
        7 => b"R3",
        8 => b"P3",
        9 => b"L3",
        10 => b"R4",
        11 => b"P4",
        _ => b"L4",
    }
}

// The name of a state of the machine of k increments.
fn state_name(k: u32, state: u32) -> &'static [u8]
    requires count { IsRoundCount k }
    requires inside { state < 3 * k + 2 }
    ensures { result.now ≡ slice_index_or (text.increment_names k) state [] }
{
    if state == 3 * k + 1 {
        FINAL
    } else {
        round_name(state)
    }
}

// Writes the entry of a quintuple.
fn write_quint(writer: &mut EntryWriter, k: u32, quint: &Quint) -> Result<(), NoMemory>
    requires count { IsRoundCount k }
    requires range { IsInRange (3 * k + 2) 3 quint.now }
    ensures { OnOk result (writer.new ≡ writer.old
        ++ line_of (quintuple_entry (text.increment_names k) text.increment_letters quint.now)) }
{
    write_row(
        writer,
        state_name(k, quint.state),
        LETTERS[quint.read as usize],
        LETTERS[quint.write as usize],
        quint.shift,
        state_name(k, quint.next),
    )
}

/// The text of the table of the machine of k increments; k is from 1 to 4. S is the start state and F the final
/// state. In round i, counted from 1, Ri goes right, Pi adds one and Li goes left. Reading the text gives the table.
/// Fails only if memory runs out.
pub fn increments_text(alloc: Global, k: u32) -> Result<Vec<u8>, NoMemory>
    requires { IsRoundCount k }
    ensures text { IfOk result (λ written. written.items ≡ text.increments_text k) }
    ensures read_back { IfOk result (λ written. Reads written.items (text.increments_table k)) }
{
    let machine = increments(alloc, k)?;
    let mut writer = EntryWriter::new(alloc);
    for quint in machine.quints() {
        write_quint(&mut writer, k, quint)?;
    }
    writer.into_text()
}
