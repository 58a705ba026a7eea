//! The last line of a trace.

ghost use Rattle.std.specs.Prelude.{◌≡◌, ◌<◌, ◌++◌, ℕ, List, IfOk};
ghost use Rattle.bn_machine.specs.Run.{Ending};
ghost use Rattle.bn_machine.specs.Tape.{scanned};
ghost use Rattle.bn_reply_machines.specs.MachineReply.{ending_status};
ghost use Rattle.bn_reply_traces.specs.Stages.{IsOutcome};
ghost use Rattle.bn_reply_traces.specs.TraceReply.{outcome_line};

use crate::stage::Stage;
use bn_base::push_u64;
use bn_lists::NoMemory;
use bn_reply::{Status, push, push_counted, push_letters};
use bn_table::Table;

// Appends the line that says how a run ends after this many steps, where this is the quintuple that is applied next, if
// there is one. Returns its status.
pub(crate) fn push_outcome(
    text: &mut Vec<u8>,
    table: &Table,
    stage: &Stage,
    made: u32,
    rule: Option<u32>,
) -> Result<Status, NoMemory>
    requires state { stage.now.state < table.now.machine.states }
    requires symbol { scanned stage.now.tape.tape < table.now.machine.symbols }
    ensures { IfOk result (λ status. (e : Ending) →
        IsOutcome table.now.machine stage.now.state (scanned stage.now.tape.tape) rule e →
        (status ≡ ending_status e) × (text.new.items ≡ text.old.items ++ outcome_line table.now made e)) }
{
    if rule.is_some() {
        push_counted(text, b"running ", u64::from(made))?;
        return Ok(Status::Inside);
    }
    if stage.state == table.machine().final_state() {
        push_counted(text, b"halted ", u64::from(made))?;
        return Ok(Status::Done);
    }
    push(text, b"stuck ")?;
    push(text, table.state_name(stage.state))?;
    push(text, b" ")?;
    push_letters(text, table, &[stage.tape.scanned()])?;
    push_counted(text, b" ", u64::from(made))?;
    Ok(Status::Stuck)
}
