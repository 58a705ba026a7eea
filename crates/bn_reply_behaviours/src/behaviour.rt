//! The command `behaviour`.

ghost use Rattle.std.specs.Prelude.{◌≤◌, List, Option, option_map};
ghost use Rattle.bn_circuits.specs.declared.place.Place.{Place};
ghost use Rattle.bn_behaviour.specs.PortNames.{port_names_of};
ghost use Rattle.bn_reply.specs.Outside.{outside};
ghost use Rattle.bn_reply.specs.Streams.{StreamEnds};
ghost use Rattle.bn_reply_behaviours.specs.BehaviourReply.{BehaviourReplies};

use crate::explore::explore_net;
use crate::form::Form;
use bn_behaviour::{Bounds, MOST_STATES, PortNames};
use bn_circuits::CLOCK;
use bn_io::{Input, Sink};
use bn_netlist::{NetConfig, read_text};
use bn_reply::{MOST_INPUT_BYTES, Status, give_reply};
use bn_reply_circuits::refuse_input;
use std::alloc::Global;

/// The command `behaviour`: reads a configuration text of either version, explores its circuit from the states of its
/// bars, and writes to the sink the table of the sequential machine that the circuit is, with all its free ports as
/// lines, or those that are named. It reports nothing to a watch.
pub fn answer_behaviour<I: Input, K: Sink>(
    alloc: Global,
    most_states: u32,
    most_steps: u64,
    names: Option<PortNames<'_>>,
    input: &mut I,
    sink: &mut K,
) -> Status
    requires some { 1 ≤ most_states }
    requires room { most_states ≤ MOST_STATES }
    requires clock { most_steps ≤ CLOCK }
    ensures ends { (told : Option (List Place)) → StreamEnds
        (BehaviourReplies most_states most_steps (option_map port_names_of names.entry)) result
        (outside (I.left input.old) (K.taken sink.old) told (I.faults input.old) (K.faults sink.old))
        (outside (I.left input.new) (K.taken sink.new) told (I.faults input.new) (K.faults sink.new)) }
    ensures in_time { I.open input.old → I.overrun input.new → I.overrun input.old }
{
    let read: NetConfig = match read_text(alloc, input, MOST_INPUT_BYTES) {
        Ok(read) => read,
        Err(refusal) => return refuse_input(alloc, sink, refusal),
    };
    let bounds = Bounds {
        states: most_states,
        steps: most_steps,
    };
    let start = read.config.states.as_slice();
    give_reply(
        sink,
        explore_net(alloc, &read.net, start, names, bounds, Form::Table),
    )
}
