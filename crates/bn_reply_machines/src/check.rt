//! The command `check`.

ghost use Rattle.std.specs.Prelude.{◌≡◌, [], IfOk};
ghost use Rattle.bn_reply.specs.Answering.{IsDone};
ghost use Rattle.bn_reply.specs.TableReply.{JudgedReplies};
ghost use Rattle.bn_reply_machines.specs.CheckReply.{CheckReplies, standard_line};

use bn_lists::NoMemory;
use bn_machine::Machine;
use bn_reply::{Judged, OpenedTable, Reply, Status, judge_table, open_table};
use bn_table::Table;
use std::alloc::Global;

/// The answer of `check` to some bytes: a refusal if they are no table whose machine is in standard form, or the size
/// of the machine.
pub fn reply_check(alloc: Global, bytes: &[u8]) -> Result<Reply, NoMemory>
    ensures { IfOk result (λ r. CheckReplies bytes.now r.status r.text.items []) }
{
    match open_table(alloc, bytes)? {
        OpenedTable::Refused(reply) => Ok(reply),
        OpenedTable::Read(table) => check_table(alloc, &table),
    }
}

// The answer of `check` to a table.
fn check_table(alloc: Global, table: &Table) -> Result<Reply, NoMemory>
    ensures { IfOk result (λ r. JudgedReplies
        (IsDone (standard_line table.now.machine)) table.now r.status r.text.items []) }
{
    match judge_table(alloc, table)? {
        Judged::Refused(reply) => Ok(reply),
        Judged::Standard(standard) => Ok(Reply {
            text: standard_text(alloc, standard.machine())?,
            status: Status::Done,
        }),
    }
}

// The line of a machine in standard form.
fn standard_text(alloc: Global, machine: &Machine) -> Result<Vec<u8>, NoMemory>
    ensures { IfOk result (λ text. text.items ≡ standard_line machine.now) }
{
    let states = machine.states();
    let symbols = machine.symbols();
    let quintuples = machine.quints().len();
    let text = format!(in alloc;
        "standard states {states} symbols {symbols} quintuples {quintuples}\n"
    )?;
    Ok(text.into_bytes())
}
