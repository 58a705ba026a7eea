//! The machine in standard form as the text of a table.

ghost use Rattle.std.specs.Prelude.{◌≡◌, ◌++◌, All, IfOk, IfErr, OnOk, map};
ghost use Rattle.bn_csv.specs.Lines.{line_of, lines_of};
ghost use Rattle.bn_table.specs.Reading.{Reads};
ghost use Rattle.bn_table.specs.Rows.{IsTable};
ghost use Rattle.bn_standardise.specs.Rules.{rules_of};
ghost use Rattle.bn_standardise.specs.Printed.{IsWritable, rule_entry, standard_lines, standard_table};
ghost use Rattle.bn_standardise.specs.Refusals.{IsAccepted, IsLooseRefusal};

use crate::acceptance::accept;
use crate::listing::list_rules;
use crate::name::text_of;
use crate::refusal::LooseRefusal;
use crate::rule::Rule;
use bn_csv::EntryWriter;
use bn_lists::NoMemory;
use bn_table::{Table, write_row};
use std::alloc::Global;

// Writes the entry of a quintuple (`Rule`).
fn write_rule(
    alloc: Global,
    writer: &mut EntryWriter,
    table: &Table,
    rule: &Rule,
) -> Result<(), NoMemory>
    requires table { IsTable table.now }
    requires writable { IsWritable table.now rule.now }
    ensures { OnOk result (writer.new ≡ writer.old ++ line_of (rule_entry table.now.letters rule.now)) }
{
    let state = text_of(alloc, rule.state)?;
    let next = text_of(alloc, rule.next)?;
    write_row(
        writer,
        state.as_slice(),
        table.letter(rule.read),
        table.letter(rule.write),
        rule.shift,
        next.as_slice(),
    )
}

// Writes the entries of quintuples (`Rule`).
fn write_rules(alloc: Global, table: &Table, rules: &[Rule]) -> Result<Vec<u8>, NoMemory>
    requires table { IsTable table.now }
    requires writable { All (IsWritable table.now) rules.now }
    ensures { IfOk result (λ text. text.items ≡ lines_of (map (rule_entry table.now.letters) rules.now)) }
{
    let mut writer = EntryWriter::new(alloc);
    for rule in rules {
        write_rule(alloc, &mut writer, table, rule)?;
    }
    writer.into_text()
}

/// The text of the machine in standard form that is equivalent to the table's machine: a line for each quintuple, in
/// the order of `standardise`, with the table's letters. State i, counted from 1, is printed as `Qi`, the new start
/// state as `I` and the new final state as `O`. Reading the text gives the table of these names and letters, whose
/// machine is that of `standardise`. The errors are those of `standardise`.
pub fn standard_text(alloc: Global, table: &Table) -> Result<Vec<u8>, LooseRefusal>
    ensures text { IfOk result (λ text. text.items ≡ standard_lines table.now) }
    ensures read_back { IfOk result (λ text. Reads text.items (standard_table table.now)) }
    ensures accepted { OnOk result (IsAccepted table.now.machine) }
    ensures refused { IfErr result (IsLooseRefusal table.now.machine) }
{
    let machine = table.machine();
    accept(alloc, machine)?;
    let rules = list_rules(alloc, machine)?;
    Ok(write_rules(alloc, table, rules.as_slice())?)
}
