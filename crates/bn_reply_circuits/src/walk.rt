//! The commands `step` and `back`.

ghost use Rattle.std.specs.Prelude.{◌≡◌};
ghost use Rattle.bn_circuits.specs.Watching.{Hears};
ghost use Rattle.bn_netlist.specs.PackedText.{spelling_of_packed};
ghost use Rattle.bn_reply.specs.Outside.{outside};
ghost use Rattle.bn_reply.specs.Streams.{StreamEnds};
ghost use Rattle.bn_reply_circuits.specs.Walking.{WalkReplies, walked_places, walked_to};
ghost use Rattle.bn_reply_relations.specs.CircuitReply.{BackReplies, StepReplies};

use crate::config::{give_config, refuse_input};
use bn_circuits::Watch;
use bn_io::{Input, Sink};
use bn_netlist::{PackedConfig, read_text};
use bn_packed::Direction;
use bn_reply::{MOST_INPUT_BYTES, Status};
use std::alloc::Global;

/// The command `step`: reads a configuration text and writes that of the configuration after at most `count` steps to
/// the sink, in the version that was read. The place after each step is reported to the watch.
pub fn answer_step<I: Input, K: Sink, W: Watch>(
    alloc: Global,
    count: u64,
    input: &mut I,
    sink: &mut K,
    watch: &mut W,
) -> Status
    ensures ends { StreamEnds (StepReplies count) result
        (outside (I.left input.old) (K.taken sink.old) (W.told watch.old) (I.faults input.old) (K.faults sink.old))
        (outside (I.left input.new) (K.taken sink.new) (W.told watch.new) (I.faults input.new) (K.faults sink.new)) }
    ensures in_time { I.open input.old → I.overrun input.new → I.overrun input.old }
{
    answer_walk(alloc, Direction::Forward, count, input, sink, watch)
}

/// The command `back`: the same as `answer_step`, after at most `count` steps back.
pub fn answer_back<I: Input, K: Sink, W: Watch>(
    alloc: Global,
    count: u64,
    input: &mut I,
    sink: &mut K,
    watch: &mut W,
) -> Status
    ensures ends { StreamEnds (BackReplies count) result
        (outside (I.left input.old) (K.taken sink.old) (W.told watch.old) (I.faults input.old) (K.faults sink.old))
        (outside (I.left input.new) (K.taken sink.new) (W.told watch.new) (I.faults input.new) (K.faults sink.new)) }
    ensures in_time { I.open input.old → I.overrun input.new → I.overrun input.old }
{
    answer_walk(alloc, Direction::Backward, count, input, sink, watch)
}

// The command that makes its steps in this direction.
fn answer_walk<I: Input, K: Sink, W: Watch>(
    alloc: Global,
    direction: Direction,
    count: u64,
    input: &mut I,
    sink: &mut K,
    watch: &mut W,
) -> Status
    ensures ends { StreamEnds (WalkReplies direction count) result
        (outside (I.left input.old) (K.taken sink.old) (W.told watch.old) (I.faults input.old) (K.faults sink.old))
        (outside (I.left input.new) (K.taken sink.new) (W.told watch.new) (I.faults input.new) (K.faults sink.new)) }
    ensures in_time { I.open input.old → I.overrun input.new → I.overrun input.old }
{
    let read = match read_text(alloc, input, MOST_INPUT_BYTES) {
        Ok(read) => read,
        Err(refusal) => return refuse_input(alloc, sink, refusal),
    };
    let moved = walk(direction, count, read, watch);
    give_config(alloc, sink, &moved)
}

// The configuration that was read, after at most `count` steps in this direction. The place after each step is
// reported to the watch.
fn walk<W: Watch>(
    direction: Direction,
    count: u64,
    read: PackedConfig,
    watch: &mut W,
) -> PackedConfig
    ensures version { result.version ≡ read.version }
    ensures walked { spelling_of_packed result ≡ walked_to direction count (spelling_of_packed read) }
    ensures told { Hears (W.told watch.old) (walked_places direction count (spelling_of_packed read))
        (W.told watch.new) }
{
    let mut moved = read;
    moved.packed.run_along(direction, count, watch);
    moved
}
