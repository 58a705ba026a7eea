//! The answers to an input without a script, and to a script with an error.

ghost use Rattle.std.specs.Prelude.{◌≡◌, IfOk};
ghost use Rattle.bn_reply_scripts.specs.ScriptReply.{uncut_line};
ghost use Rattle.bn_reply_scripts.specs.Refusing.{IsScriptRefused, what_line};

use bn_lists::NoMemory;
use bn_reply::{Reply, Status};
use bn_session::ScriptRefusal;
use std::alloc::Global;

/// The answer to an input without a line `%`.
pub fn without_script(alloc: Global) -> Result<Reply, NoMemory>
    ensures status { IfOk result (λ r. r.status ≡ Status.Text) }
    ensures text { IfOk result (λ r. r.text.items ≡ uncut_line) }
{
    Ok(Reply {
        text: String::from_str(alloc, "text: no script\n")?.into_bytes(),
        status: Status::Text,
    })
}

/// The answer to a script with an error.
pub fn refuse_script(alloc: Global, refusal: ScriptRefusal) -> Result<Reply, NoMemory>
    ensures { IfOk result (λ r. IsScriptRefused refusal r.status r.text.items) }
{
    match refusal {
        ScriptRefusal::Form { line } => refuse_line(alloc, line, "form"),
        ScriptRefusal::NoState { line } => refuse_line(alloc, line, "no state"),
        ScriptRefusal::SameBreak { line } => refuse_line(alloc, line, "same break"),
        ScriptRefusal::NoBreak { line } => refuse_line(alloc, line, "no break"),
        ScriptRefusal::NoMemory => Err(NoMemory),
    }
}

// The answer to a script with an error in one of its lines, counted from 1.
fn refuse_line(alloc: Global, line: u64, what: &str) -> Result<Reply, NoMemory>
    ensures status { IfOk result (λ r. r.status ≡ Status.Text) }
    ensures text { IfOk result (λ r. r.text.items ≡ what_line line what.now) }
{
    let told = format!(in alloc; "text: script line {line} {what}\n")?;
    Ok(Reply::of_fault(told.into_bytes()))
}
