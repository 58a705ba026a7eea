//! The command `look`.

ghost use Rattle.std.specs.Prelude.{[], IfOk};
ghost use Rattle.bn_qtable.specs.TapeWords.{tape_words_of};
ghost use Rattle.bn_network.specs.Limits.{AreSmall};
ghost use Rattle.bn_network_assembly.specs.Assembled.{limits_of};
ghost use Rattle.bn_reply_looks.specs.LookReply.{LookReplies};

use crate::look_text::build_text;
use bn_lists::NoMemory;
use bn_network_assembly::Windows;
use bn_qtable::TapeWords;
use bn_reply::{Reply, Status};
use bn_reply_builds::{OpenedBuild, open_build};
use std::alloc::Global;

/// The answer of `look` to words on the tapes, a window, a greatest number of element steps and some bytes: any refusal
/// of `build`; otherwise every layer of the circuit after that many steps, or after as many as can be made.
pub fn reply_look(
    alloc: Global,
    words: &TapeWords,
    windows: &Windows,
    steps: u64,
    bytes: &[u8],
) -> Result<Reply, NoMemory>
    requires { AreSmall (limits_of windows.now) }
    ensures { IfOk result (λ r. LookReplies (tape_words_of words.now) (limits_of windows.now) steps bytes.now
        r.status r.text.items []) }
{
    match open_build(alloc, words, windows, bytes)? {
        OpenedBuild::Refused(reply) => Ok(reply),
        OpenedBuild::Made(machine, names, mut board) => {
            board.run(steps);
            Ok(Reply {
                text: build_text(alloc, &machine, &names, &board)?,
                status: Status::Done,
            })
        }
    }
}
