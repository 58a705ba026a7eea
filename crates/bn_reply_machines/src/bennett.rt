//! The command `bennett`.

ghost use Rattle.std.specs.Prelude.{◌≡◌, [], IfOk};
ghost use Rattle.bn_table.specs.Rows.{FitsTable};
ghost use Rattle.bn_reply.specs.Answering.{IsDone};
ghost use Rattle.bn_reply.specs.TableReply.{JudgedReplies};
ghost use Rattle.bn_reply_machines.specs.BennettReply.{BennettReplies, bennett_text};

use bn_bennett::{names, translate};
use bn_lists::NoMemory;
use bn_machine::Standard;
use bn_qtable::write_quads;
use bn_reply::{Judged, OpenedTable, Reply, Status, judge_table, open_table};
use bn_table::Table;
use std::alloc::Global;

/// The answer of `bennett` to some bytes: a refusal if they are no table whose machine is in standard form, or the
/// table of its reversible machine.
pub fn reply_bennett(alloc: Global, bytes: &[u8]) -> Result<Reply, NoMemory>
    ensures { IfOk result (λ r. BennettReplies bytes.now r.status r.text.items []) }
{
    match open_table(alloc, bytes)? {
        OpenedTable::Refused(reply) => Ok(reply),
        OpenedTable::Read(table) => translate_table(alloc, &table),
    }
}

// The answer of `bennett` to a table.
fn translate_table(alloc: Global, table: &Table) -> Result<Reply, NoMemory>
    ensures { IfOk result (λ r. JudgedReplies (IsDone (bennett_text table.now)) table.now r.status r.text.items []) }
{
    match judge_table(alloc, table)? {
        Judged::Refused(reply) => Ok(reply),
        Judged::Standard(standard) => Ok(Reply {
            text: translated_text(alloc, table, &standard)?,
            status: Status::Done,
        }),
    }
}

// The text of the reversible machine of a table's machine.
fn translated_text(
    alloc: Global,
    table: &Table,
    standard: &Standard<'_>,
) -> Result<Vec<u8>, NoMemory>
    requires same { standard.now ≡ table.now.machine }
    requires fits { FitsTable table.now.machine }
    ensures { IfOk result (λ text. text.items ≡ bennett_text table.now) }
{
    let translated = translate(alloc, standard)?;
    let names = names(alloc, table, &translated)?;
    write_quads(alloc, translated.machine().machine(), &names)
}
