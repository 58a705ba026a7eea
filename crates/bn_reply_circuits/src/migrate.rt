//! The command `migrate`.

ghost use Rattle.std.specs.Prelude.{Option, List};
ghost use Rattle.bn_circuits.specs.declared.place.Place.{Place};
ghost use Rattle.bn_reply.specs.Outside.{outside};
ghost use Rattle.bn_reply.specs.Streams.{StreamEnds};
ghost use Rattle.bn_reply_relations.specs.MigrateReply.{MigrateReplies};

use crate::config::{give_config, refuse_input};
use bn_io::{Input, Sink};
use bn_netlist::{PackedConfig, Version, read_text};
use bn_reply::{MOST_INPUT_BYTES, Status};
use std::alloc::Global;

/// The command `migrate`: reads a configuration text of either version and writes that of the same configuration in
/// version 2 to the sink. It reports nothing to a watch.
pub fn answer_migrate<I: Input, K: Sink>(alloc: Global, input: &mut I, sink: &mut K) -> Status
    ensures ends { (told : Option (List Place)) → StreamEnds MigrateReplies result
        (outside (I.left input.old) (K.taken sink.old) told (I.faults input.old) (K.faults sink.old))
        (outside (I.left input.new) (K.taken sink.new) told (I.faults input.new) (K.faults sink.new)) }
    ensures in_time { I.open input.old → I.overrun input.new → I.overrun input.old }
{
    let mut read: PackedConfig = match read_text(alloc, input, MOST_INPUT_BYTES) {
        Ok(read) => read,
        Err(refusal) => return refuse_input(alloc, sink, refusal),
    };
    read.version = Version::Two;
    give_config(alloc, sink, &read)
}
