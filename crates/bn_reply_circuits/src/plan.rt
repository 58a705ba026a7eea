//! The command `plan`.

ghost use Rattle.std.specs.Prelude.{◌≡◌, ◌≤◌, IfOk, List, Option, length};
ghost use Rattle.bn_circuits.specs.declared.place.Place.{Place};
ghost use Rattle.bn_reply.specs.Outside.{outside};
ghost use Rattle.bn_reply.specs.Streams.{StreamEnds};
ghost use Rattle.bn_reply_circuits.specs.PlanReply.{PlanReplies, TellsPlan};

use crate::config::refuse_input;
use crate::plan_text::plan_text;
use bn_circuits::{MOST_ELEMENTS, Net};
use bn_element::Rotary;
use bn_io::{Input, Sink};
use bn_lists::NoMemory;
use bn_netlist::{NetConfig, read_text};
use bn_plan::plan;
use bn_reply::{MOST_INPUT_BYTES, Reply, Status, give_reply};
use std::alloc::Global;

/// The command `plan`: reads a configuration text of either version and writes the floor plan of its circuit to the
/// sink. It reports nothing to a watch.
pub fn answer_plan<I: Input, K: Sink>(alloc: Global, input: &mut I, sink: &mut K) -> Status
    ensures ends { (told : Option (List Place)) → StreamEnds PlanReplies result
        (outside (I.left input.old) (K.taken sink.old) told (I.faults input.old) (K.faults sink.old))
        (outside (I.left input.new) (K.taken sink.new) told (I.faults input.new) (K.faults sink.new)) }
    ensures in_time { I.open input.old → I.overrun input.new → I.overrun input.old }
{
    let read: NetConfig = match read_text(alloc, input, MOST_INPUT_BYTES) {
        Ok(read) => read,
        Err(refusal) => return refuse_input(alloc, sink, refusal),
    };
    give_reply(sink, plan_net(alloc, &read.net))
}

// The answer for a net that was read.
fn plan_net(alloc: Global, net: &Net<Rotary>) -> Result<Reply, NoMemory>
    requires { length net.now.elements ≤ MOST_ELEMENTS }
    ensures status { IfOk result (λ r. r.status ≡ Status.Done) }
    ensures text { IfOk result (λ r. TellsPlan net.now.wires (length net.now.elements) r.text.items) }
{
    let plan = plan(alloc, net)?;
    Ok(Reply {
        text: plan_text(alloc, net.len(), &plan)?,
        status: Status::Done,
    })
}
