//! The answer to bytes that are no configuration text.

ghost use Rattle.std.specs.Prelude.{◌≡◌, IfOk};
ghost use Rattle.bn_reply_circuits.specs.Refused.{IsRefused, line_text};

use bn_lists::NoMemory;
use bn_netlist::NetlistRefusal;
use bn_reply::{Reply, Status};
use std::alloc::Global;

/// The answer to bytes that are no configuration text, by their first fault.
pub(crate) fn refuse_config(alloc: Global, refusal: NetlistRefusal) -> Result<Reply, NoMemory>
    ensures { IfOk result (λ r. IsRefused refusal r.status r.text.items) }
{
    match refusal {
        NetlistRefusal::Syntax { line } => refuse_line(alloc, line, "syntax"),
        NetlistRefusal::Order { line } => refuse_line(alloc, line, "order"),
        NetlistRefusal::Target { line } => refuse_line(alloc, line, "target"),
        NetlistRefusal::TwoSources { line } => refuse_line(alloc, line, "two sources"),
        NetlistRefusal::StartFed { line } => refuse_line(alloc, line, "start fed"),
        NetlistRefusal::EndWired { line } => refuse_line(alloc, line, "end wired"),
        NetlistRefusal::LeftWired { line } => refuse_line(alloc, line, "left wired"),
        NetlistRefusal::TooMany { line } => refuse_line(alloc, line, "too many"),
        NetlistRefusal::Spelling { line } => refuse_line(alloc, line, "spelling"),
        NetlistRefusal::NoMemory => Err(NoMemory),
    }
}

// The line that refuses a text for a fault of one of its lines.
fn refuse_line(alloc: Global, line: u64, what: &str) -> Result<Reply, NoMemory>
    ensures status { IfOk result (λ r. r.status ≡ Status.Text) }
    ensures text { IfOk result (λ r. r.text.items ≡ line_text line what.now) }
{
    let told = format!(in alloc; "text: line {line} {what}\n")?;
    Ok(Reply::of_fault(told.into_bytes()))
}
