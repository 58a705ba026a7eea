//! The command `layout`.

ghost use Rattle.std.specs.Prelude.{◌≡◌, ◌≤◌, List, [], IfOk, Option};
ghost use Rattle.bn_io.specs.Faults.{CountsUnless};
ghost use Rattle.bn_circuits.specs.declared.place.Place.{Place};
ghost use Rattle.bn_network.specs.Limits.{AreSmall};
ghost use Rattle.bn_network_assembly.specs.Assembled.{limits_of};
ghost use Rattle.bn_reply.specs.Streams.{AnswerEnds};
ghost use Rattle.bn_reply_layout.specs.LayoutReply.{LayoutReplies};

use crate::layout_text::layout_text;
use bn_io::Sink;
use bn_lists::NoMemory;
use bn_network_assembly::Windows;
use bn_reply::{Reply, Status, give_reply};
use bn_reply_boards::{OpenedInput, open_input};
use std::alloc::Global;

/// Answers `layout` for a word, a window and some bytes: gives the sink the text of `reply_layout`.
pub fn answer_layout<K: Sink>(
    alloc: Global,
    word: &[u8],
    windows: &Windows,
    bytes: &[u8],
    sink: &mut K,
) -> Status
    requires { AreSmall (limits_of windows.now) }
    ensures ends { (told : Option (List Place)) →
        AnswerEnds (LayoutReplies word.now (limits_of windows.now) bytes.now) result
        (K.taken sink.old) (K.taken sink.new) (K.faults sink.old) (K.faults sink.new) told told }
    ensures later { CountsUnless (result ≡ Status.WriteFault) (K.faults sink.old) (K.faults sink.new) }
{
    give_reply(sink, reply_layout(alloc, word, windows, bytes))
}

/// The answer of `layout` to a word, a window and some bytes. It refuses, in this order: bytes that are no table whose
/// machine is in standard form; a word with other letters or too long for the window; a circuit with too many elements.
/// Otherwise the answer lists the parts of the circuit.
pub fn reply_layout(
    alloc: Global,
    word: &[u8],
    windows: &Windows,
    bytes: &[u8],
) -> Result<Reply, NoMemory>
    requires { AreSmall (limits_of windows.now) }
    ensures { IfOk result (λ r. LayoutReplies word.now (limits_of windows.now) bytes.now r.status r.text.items []) }
{
    match open_input(alloc, word, windows, bytes)? {
        OpenedInput::Refused(reply) => Ok(reply),
        OpenedInput::Made(table, translated, _board) => Ok(Reply {
            text: layout_text(alloc, &table, &translated, windows)?,
            status: Status::Done,
        }),
    }
}
