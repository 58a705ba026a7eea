//! Reading and writing the text of a table.

ghost use Rattle.std.specs.Prelude.{◌≡◌, ◌≤◌, ◌++◌, ◌∷◌, [], true, ◌≢◌, Some, IfOk, IfErr, OnOk, length};
ghost use Rattle.bn_csv.specs.Entries.{entries_of};
ghost use Rattle.bn_csv.specs.Forms.{is_state_name, is_symbol};
ghost use Rattle.bn_csv.specs.Lines.{is_plain, is_plain_entry, line_of, lines_of};
ghost use Rattle.bn_lists.specs.Lists.{nth};
ghost use Rattle.bn_quad.specs.Names.{symbols_on};
ghost use Rattle.bn_quad.specs.Kept.{Agree, IsUnmixed, deed_of, rule_of};
ghost use Rattle.bn_qtable.specs.Entry.{quadruple_entry, read_field, act_field};
ghost use Rattle.bn_qtable.specs.Faults.{quadruple_table_fault};
ghost use Rattle.bn_qtable.specs.Named.{HasNames, RuleIsNamed, DeedIsNamed};
ghost use Rattle.bn_qtable.specs.Reading.{ReadsQuadruples};
ghost use Rattle.bn_qtable.specs.Rows.{IsTable, quadruple_rows_by, said_deed, said_of_quadruple, table_of};
ghost use Rattle.bn_qtable.specs.declared.refusal.QuadTableRefusal.TheVariants as refusal;

use crate::draft::{into_table, new_draft};
use crate::refusal::QuadTableRefusal;
use bn_csv::{EntryWriter, read_entries};
use bn_lists::NoMemory;
use bn_machine::{Shift, text_of_shift};
use bn_quad::{Act, Quad, QuadMachine, QuadNames};
use std::alloc::Global;

/// Reads the bytes of a table: csv records without a header. Each has a state's name, the reads on the three tapes (`/`
/// if the tape is not read), the actions there (a shift `-`, `0` or `+` if the tape is not read, and otherwise the
/// symbol to write), and the next state's name. Returns the only reading of the bytes, which `write_quads` can write.
/// Each refusal but `NoMemory` is the first fault of the entries.
pub fn read_quads(alloc: Global, bytes: &[u8]) -> Result<(QuadMachine, QuadNames), QuadTableRefusal>
    ensures ok { IfOk result (λ t. ReadsQuadruples bytes.now (table_of t.0 t.1)) }
    ensures named { IfOk result (λ t. HasNames t.0 t.1) }
    ensures refused { IfErr result (λ e. e ≢ refusal.NoMemory → quadruple_table_fault (entries_of bytes.now) ≡ Some e) }
{
    let draft = read_entries(alloc, bytes, new_draft(alloc)?)?;
    into_table(alloc, draft)
}

// The two fields of a read and an action on a tape.
fn fields_on<'a>(
    names: &'a QuadNames,
    tape: u32,
    read: Option<u32>,
    act: Act,
) -> (&'a [u8], &'a [u8])
    requires first { 1 ≤ tape }
    requires last { tape ≤ 3 }
    requires unmixed { Agree read act }
    requires named { DeedIsNamed (symbols_on names.now tape) (deed_of read act) }
    ensures read { result.0.now ≡ read_field (said_deed (symbols_on names.now tape) (deed_of read act)) }
    ensures act { result.1.now ≡ act_field (said_deed (symbols_on names.now tape) (deed_of read act)) }
    ensures plain { (is_plain result.0.now ≡ true) × (is_plain result.1.now ≡ true) }
{
    match act {
        Act::Shift(shift) => (b"/", text_of_shift(shift)),
        Act::Write(written) => match read {
            Some(read) => (names.symbol(tape, read), names.symbol(tape, written)),
            None => unreachable!(),
        },
    }
}

// Writes the entry of a quadruple.
fn write_quad(writer: &mut EntryWriter, names: &QuadNames, quad: &Quad) -> Result<(), NoMemory>
    requires acts { length quad.now.act ≡ 3 }
    requires unmixed { IsUnmixed quad.now }
    requires named { RuleIsNamed names.now (rule_of quad.now) }
    ensures { OnOk result (writer.new ≡ writer.old
        ++ line_of (quadruple_entry (said_of_quadruple names.now (rule_of quad.now)))) }
{
    let (read1, act1) = fields_on(names, 1, quad.read[0], quad.act[0]);
    let (read2, act2) = fields_on(names, 2, quad.read[1], quad.act[1]);
    let (read3, act3) = fields_on(names, 3, quad.read[2], quad.act[2]);
    let state = names.state(quad.state);
    let next = names.state(quad.next);
    writer.write_entry(&[state, read1, read2, read3, act1, act2, act3, next])
}

/// The text of a table: for each quadruple a line with its eight fields, in order. Every state and every symbol of the
/// machine must have a name in its form. If the names are numbered by first appearance, reading the text gives the
/// table.
pub fn write_quads(
    alloc: Global,
    machine: &QuadMachine,
    names: &QuadNames,
) -> Result<Vec<u8>, NoMemory>
    requires { HasNames machine.now names.now }
    ensures text { IfOk result (λ text. text.items ≡ lines_of (quadruple_rows_by names.now machine.now.rules)) }
    ensures entries { IfOk result (λ text. entries_of text.items ≡ quadruple_rows_by names.now machine.now.rules) }
    ensures read_back { IfOk result (λ text. IsTable (table_of machine.now names.now)
        → ReadsQuadruples text.items (table_of machine.now names.now)) }
{
    let mut writer = EntryWriter::new(alloc);
    for quad in machine.quads() {
        write_quad(&mut writer, names, quad)?;
    }
    writer.into_text()
}
