//! The command `compile`.

ghost use Rattle.std.specs.Prelude.{◌≡◌, ◌≤◌, List, IfOk, Option};
ghost use Rattle.bn_io.specs.Faults.{CountsUnless};
ghost use Rattle.bn_circuits.specs.declared.place.Place.{Place};
ghost use Rattle.bn_network.specs.Limits.{AreSmall};
ghost use Rattle.bn_network_assembly.specs.Assembled.{limits_of};
ghost use Rattle.bn_netlist.specs.PackedText.{spelling_of_packed};
ghost use Rattle.bn_reply.specs.Streams.{AnswerEnds};
ghost use Rattle.bn_reply_relations.specs.CompileReply.{CompileReplies};
ghost use Rattle.bn_reply_boards.specs.Opened.{spelling_of_board};
ghost use Rattle.bn_reply_circuits.specs.Unwritten.{WillReply};

use crate::opening::{OpenedInput, open_input};
use bn_board::Board;
use bn_io::Sink;
use bn_lists::NoMemory;
use bn_netlist::{PackedConfig, Version};
use bn_network_assembly::Windows;
use bn_reply::Status;
use bn_reply_circuits::Unwritten;
use std::alloc::Global;

/// The command `compile` for a word, a window and some bytes: tests whether the bytes are a table with a machine in
/// standard form, the word is one of its letters and fits, and the circuit does not have too many elements; and then
/// writes the configuration text of the circuit at its start to the sink, in version 2 and in pieces.
pub fn answer_compile<K: Sink>(
    alloc: Global,
    word: &[u8],
    windows: &Windows,
    bytes: &[u8],
    sink: &mut K,
) -> Status
    requires { AreSmall (limits_of windows.now) }
    ensures ends { (told : Option (List Place)) →
        AnswerEnds (CompileReplies word.now (limits_of windows.now) bytes.now) result
        (K.taken sink.old) (K.taken sink.new) (K.faults sink.old) (K.faults sink.new) told told }
    ensures later { CountsUnless (result ≡ Status.WriteFault) (K.faults sink.old) (K.faults sink.new) }
{
    match start_of(alloc, word, windows, bytes) {
        Ok(answer) => answer.give(alloc, sink),
        Err(NoMemory) => Status::NoMemory,
    }
}

// The answer of `compile`, before it is written.
fn start_of(
    alloc: Global,
    word: &[u8],
    windows: &Windows,
    bytes: &[u8],
) -> Result<Unwritten, NoMemory>
    requires { AreSmall (limits_of windows.now) }
    ensures { IfOk result (WillReply (CompileReplies word.now (limits_of windows.now) bytes.now)) }
{
    match open_input(alloc, word, windows, bytes)? {
        OpenedInput::Refused(reply) => Ok(Unwritten::Line(reply)),
        OpenedInput::Made(_, _, board) => { Ok(Unwritten::Packed(board_config(board))) }
    }
}

/// A circuit as a configuration whose text is of version 2.
pub fn board_config(board: Board) -> PackedConfig
    ensures version { result.version ≡ Version.Two }
    ensures spelling { spelling_of_packed result ≡ spelling_of_board board }
{
    PackedConfig {
        version: Version::Two,
        start: board.start(),
        end: board.end(),
        packed: board.into_packed(),
    }
}
