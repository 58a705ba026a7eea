//! The answer to bytes that are no configuration text.

ghost use Rattle.std.specs.Prelude.{◌≡◌, IfOk};
ghost use Rattle.bn_reply_walks.specs.Refused.{IsTextRefused, wrong_line};

use bn_lists::NoMemory;
use bn_netlist::NetlistRefusal;
use bn_reply::{Reply, Status};
use std::alloc::Global;

/// The answer to bytes that are no configuration text, by their first fault.
pub(crate) fn refuse_config(alloc: Global, refusal: NetlistRefusal) -> Result<Reply, NoMemory>
    ensures status { IfOk result (λ r. r.status ≡ Status.Text) }
    ensures text { IfOk result (λ r. IsTextRefused refusal r.text.items) }
{
    match refusal {
        NetlistRefusal::Syntax { line } => refuse_line(alloc, line, "syntax"),
        NetlistRefusal::Order { line } => refuse_line(alloc, line, "order"),
        NetlistRefusal::Target { line } => refuse_line(alloc, line, "target"),
        NetlistRefusal::TwoSources { line } => refuse_line(alloc, line, "two sources"),
        NetlistRefusal::StartFed { line } => refuse_line(alloc, line, "start fed"),
        NetlistRefusal::EndWired { line } => refuse_line(alloc, line, "end wired"),
        NetlistRefusal::LeftWired { line } => refuse_line(alloc, line, "left wired"),
        NetlistRefusal::TooMany { line } => refuse_line(alloc, line, "too many"),
        NetlistRefusal::Spelling { line } => refuse_line(alloc, line, "spelling"),
        NetlistRefusal::NoMemory => Err(NoMemory),
    }
}

// The answer to a text with a fault in one of its lines, counted from 1.
fn refuse_line(alloc: Global, line: u64, what: &str) -> Result<Reply, NoMemory>
    ensures status { IfOk result (λ r. r.status ≡ Status.Text) }
    ensures text { IfOk result (λ r. r.text.items ≡ wrong_line line what.now) }
{
    let told = format!(in alloc; "text: line {line} {what}\n")?;
    Ok(Reply::of_fault(told.into_bytes()))
}
