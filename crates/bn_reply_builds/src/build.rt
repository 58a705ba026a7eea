//! The command `build`.

ghost use Rattle.std.specs.Prelude.{◌≡◌, ◌≤◌, List, IfOk, Option, ℕ};
ghost use Rattle.bn_io.specs.Faults.{CountsUnless};
ghost use Rattle.bn_circuits.specs.declared.place.Place.{Place};
ghost use Rattle.bn_qtable.specs.TapeWords.{tape_words_of};
ghost use Rattle.bn_network.specs.Limits.{AreSmall};
ghost use Rattle.bn_network_assembly.specs.Assembled.{limits_of};
ghost use Rattle.bn_reply.specs.Streams.{AnswerEnds};
ghost use Rattle.bn_reply_circuits.specs.Unwritten.{WillReply};
ghost use Rattle.bn_reply_builds.specs.BuildReply.{BuildReplies};

use crate::opening::{OpenedBuild, open_build};
use bn_io::Sink;
use bn_lists::NoMemory;
use bn_network_assembly::Windows;
use bn_qtable::TapeWords;
use bn_reply::Status;
use bn_reply_boards::board_config;
use bn_reply_circuits::Unwritten;
use std::alloc::Global;

/// The command `build` for words on the tapes, a window and some bytes: tests whether the bytes are a table of
/// quadruples whose machine is deterministic, reversible and uniform, the words have the names of their tapes'
/// symbols, no tape has too many symbols, the words fit, and the circuit does not have too many elements; and then
/// writes the configuration text of the circuit at its start to the sink, in version 2 and in pieces.
pub fn answer_build<K: Sink>(
    alloc: Global,
    words: &TapeWords,
    windows: &Windows,
    bytes: &[u8],
    sink: &mut K,
) -> Status
    requires { AreSmall (limits_of windows.now) }
    ensures ends { (told : Option (List Place)) →
        AnswerEnds (BuildReplies (tape_words_of words.now) (limits_of windows.now) bytes.now) result
        (K.taken sink.old) (K.taken sink.new) (K.faults sink.old) (K.faults sink.new) told told }
    ensures later { CountsUnless (result ≡ Status.WriteFault) (K.faults sink.old) (K.faults sink.new) }
{
    match start_of(alloc, words, windows, bytes) {
        Ok(answer) => answer.give(alloc, sink),
        Err(NoMemory) => Status::NoMemory,
    }
}

// The answer of `build`, before it is written.
fn start_of(
    alloc: Global,
    words: &TapeWords,
    windows: &Windows,
    bytes: &[u8],
) -> Result<Unwritten, NoMemory>
    requires { AreSmall (limits_of windows.now) }
    ensures { IfOk result (WillReply (BuildReplies (tape_words_of words.now) (limits_of windows.now) bytes.now)) }
{
    match open_build(alloc, words, windows, bytes)? {
        OpenedBuild::Refused(reply) => Ok(Unwritten::Line(reply)),
        OpenedBuild::Made(_, _, board) => Ok(Unwritten::Packed(board_config(board))),
    }
}
