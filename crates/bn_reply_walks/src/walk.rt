//! The command `walk`.

ghost use Rattle.std.specs.Prelude.{◌≡◌, [], None, IfOk, IfErr};
ghost use Rattle.bn_netlist.specs.NetText.{IsTextRefusal};
ghost use Rattle.bn_netlist.specs.PackedText.{spelling_of_packed};
ghost use Rattle.bn_netlist_laws.specs.Spelling.{Spelled, Spelling};
ghost use Rattle.bn_reply_scripts.specs.ScriptReply.{ScriptReplies};
ghost use Rattle.bn_reply_walks.specs.WalkReply.{IsWalkOf, WalkReplies, WalkTextReplies};
ghost use Rattle.bn_reply_walks.specs.Walking.{IsPackedOf};

use crate::packed::TextBars;
use crate::refuse::refuse_config;
use bn_base::cut_input;
use bn_io::SliceInput;
use bn_lists::NoMemory;
use bn_netlist::{FromRefusal, NetlistRefusal, PackedConfig, read_text};
use bn_packed::Packed;
use bn_reply::{Reply, Status};
use bn_reply_scripts::{refuse_script, without_script};
use bn_session::{Script, play_on, read_circuit_script};
use std::alloc::Global;

/// The answer of `walk` to some bytes, which are a configuration text of either version, a line `%` and a script. It
/// refuses, in this order: bytes without such a line; the first fault of bytes that are no configuration text; a script
/// with an error. Otherwise the answer is that of the script, played on the circuit of the text from its configuration.
/// (This project's own definition.)
pub fn reply_walk(alloc: Global, bytes: &[u8]) -> Result<Reply, NoMemory>
    ensures { IfOk result (λ r. WalkReplies bytes.now r.status r.text.items []) }
{
    match cut_input(bytes) {
        Some((text, script)) => walk_input(alloc, text, script),
        None => without_script(alloc),
    }
}

// The answer to the bytes of a configuration text and a script.
fn walk_input(alloc: Global, bytes: &[u8], script: &[u8]) -> Result<Reply, NoMemory>
    ensures { IfOk result (λ r. WalkTextReplies bytes.now script.now r.status r.text.items []) }
{
    match read_packed(alloc, bytes) {
        Ok(read) => walk_packed(alloc, read.packed, script),
        Err(refusal) => refuse_config(alloc, refusal),
    }
}

// Reads a configuration text of either version as a packed net. A refusal names the text's first fault.
fn read_packed(alloc: Global, bytes: &[u8]) -> Result<PackedConfig, NetlistRefusal>
    ensures spelled { IfOk result (λ c. Spelled c.version (spelling_of_packed c) bytes.now) }
    ensures refused { IfErr result (IsTextRefusal bytes.now) }
{
    let mut input = SliceInput::new(bytes);
    match read_text(alloc, &mut input, u64::MAX) {
        Ok(config) => Ok(config),
        Err(FromRefusal::Text(refusal)) => Err(refusal),
        Err(FromRefusal::NoMemory) => Err(NetlistRefusal::NoMemory),
        Err(FromRefusal::ReadFault | FromRefusal::TooLong) => unreachable!(),
    }
}

// The answer to a script and a packed net.
fn walk_packed(alloc: Global, packed: Packed, script: &[u8]) -> Result<Reply, NoMemory>
    ensures { IfOk result (λ r. (s : Spelling) → IsPackedOf s packed
        → ScriptReplies None (IsWalkOf s) script.now r.status r.text.items []) }
{
    match read_circuit_script(alloc, script) {
        Ok(script) => play_script(alloc, packed, &script),
        Err(refusal) => refuse_script(alloc, refusal),
    }
}

// The answer to a script that is played on a packed net.
fn play_script(alloc: Global, packed: Packed, script: &Script) -> Result<Reply, NoMemory>
    ensures status { IfOk result (λ r. r.status ≡ Status.Done) }
    ensures text { IfOk result (λ r. (s : Spelling) → IsPackedOf s packed
        → IsWalkOf s script.now r.text.items) }
{
    let mut walked = packed;
    let start = walked.to_config(alloc)?;
    let bars = TextBars {
        states: start.states,
    };
    let mut text = Vec::new(alloc);
    let elements = walked.len();
    play_on(alloc, &mut walked, elements, script, &bars, &mut text)?;
    Ok(Reply {
        text,
        status: Status::Done,
    })
}
