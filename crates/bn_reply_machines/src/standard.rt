//! The command `standard`.

ghost use Rattle.std.specs.Prelude.{[], IfOk};
ghost use Rattle.bn_reply_machines.specs.StandardReply.{IsRefusedReply, StandardTableReplies};
ghost use Rattle.bn_reply_machines.specs.StandardReply.{TellsStandard};

use bn_lists::NoMemory;
use bn_reply::{OpenedTable, Reply, Status, open_table};
use bn_standardise::{LooseRefusal, standard_text};
use bn_table::Table;
use std::alloc::Global;

/// The answer of `standard` to some bytes: a refusal if they are no table, or the table of the equivalent machine in
/// standard form for its machine, which starts on the first letter, or why there is none.
pub fn reply_standard(alloc: Global, bytes: &[u8]) -> Result<Reply, NoMemory>
    ensures { IfOk result (λ r. StandardTableReplies bytes.now r.status r.text.items []) }
{
    match open_table(alloc, bytes)? {
        OpenedTable::Refused(reply) => Ok(reply),
        OpenedTable::Read(table) => standardise_table(alloc, &table),
    }
}

// The answer of `standard` to a table.
fn standardise_table(alloc: Global, table: &Table) -> Result<Reply, NoMemory>
    ensures { IfOk result (λ r. TellsStandard table.now r.status r.text.items []) }
{
    match standard_text(alloc, table) {
        Ok(text) => Ok(Reply {
            text,
            status: Status::Done,
        }),
        Err(refusal) => refused_reply(alloc, refusal),
    }
}

// The answer to a table whose machine is refused.
fn refused_reply(alloc: Global, refusal: LooseRefusal) -> Result<Reply, NoMemory>
    ensures { IfOk result (IsRefusedReply refusal) }
{
    match refusal {
        LooseRefusal::Repeat { i, j } => Ok(Reply {
            text: format!(in alloc; "machine: S1 {i} {j}\n")?.into_bytes(),
            status: Status::Machine,
        }),
        LooseRefusal::Halting { i } => Ok(Reply {
            text: format!(in alloc; "machine: halting {i}\n")?.into_bytes(),
            status: Status::Machine,
        }),
        LooseRefusal::Many { count } => Ok(Reply {
            text: format!(in alloc; "size: quintuples {count}\n")?.into_bytes(),
            status: Status::Size,
        }),
        LooseRefusal::NoMemory => Err(NoMemory),
    }
}
