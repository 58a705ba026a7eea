//! The answer to arguments on an input in memory.

ghost use Rattle.std.specs.Prelude.{map, IfOk, OnErr};
ghost use Rattle.std.specs.String.{string_bytes};
ghost use Rattle.bn_reply.specs.Replying.{IsUnfinished};
ghost use Rattle.bn_top.specs.Answers.{Answers};
ghost use Rattle.bn_top.specs.Headlines.{IsReplyTo};

use crate::answering::answer_words;
use bn_circuits::Watch;
use bn_io::{SliceInput, VecSink};
use bn_lists::NoMemory;
use bn_reply::{Reply, Status};
use std::alloc::Global;

/// Runs the command that the arguments of a command line name on an input in memory, which is not copied: the text and
/// the status are those of `workbench` if its source holds this input. For `step`, `back`, `run`, `drive` and
/// `generate`, the place of the signal after each element step is reported to the watch.
pub fn reply_in_memory<W: Watch>(
    alloc: Global,
    words: &[String],
    input: &[u8],
    watch: &mut W,
) -> Result<Reply, NoMemory>
    // The answer, which states the headlines.
    ensures replied { IfOk result (λ r. IsReplyTo (map string_bytes words.now) input.now r (W.told watch.old)
        (W.told watch.new)) }

    // What the watch heard if memory ran out.
    ensures no_memory { OnErr result (IsUnfinished (Answers (map string_bytes words.now) input.now)
        (W.told watch.old) (W.told watch.new)) }
{
    let mut input = SliceInput::new(input);
    let mut sink = VecSink::new(alloc);
    match answer_words(alloc, words, &mut input, &mut sink, watch) {
        Status::ReadFault => unreachable!(),
        Status::WriteFault | Status::NoMemory => Err(NoMemory),
        status => Ok(Reply {
            text: sink.into_bytes(),
            status,
        }),
    }
}
