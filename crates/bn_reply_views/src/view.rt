//! The command `view`.

ghost use Rattle.std.specs.Prelude.{ℕ, [], List, IfOk};
ghost use Rattle.bn_network.specs.Limits.{AreSmall};
ghost use Rattle.bn_network_assembly.specs.Assembled.{limits_of};
ghost use Rattle.bn_machine.specs.Outcome.{Limits};
ghost use Rattle.bn_boards.specs.Flats.{Flat};
ghost use Rattle.bn_board.specs.Flattened.{IsBoardKept};
ghost use Rattle.bn_view.specs.Viewed.{IsBoardFor};
ghost use Rattle.bn_reply_views.specs.ViewReply.{ViewReplies};
ghost use Rattle.bn_reply_views.specs.Showing.{TellsLayers};
ghost use Rattle.bn_reply_views.specs.Viewing.{MayShow};

use crate::view_text::view_text;
use bn_bennett::Translated;
use bn_board::Board;
use bn_lists::NoMemory;
use bn_network_assembly::Windows;
use bn_reply::{Reply, Status};
use bn_reply_boards::{OpenedInput, open_input};
use bn_table::Table;
use bn_view::view;
use std::alloc::Global;

/// The answer of `view` to a word, a window, a greatest number of steps and some bytes. It refuses, in this order:
/// bytes that are no table whose machine is in standard form; a word with other letters or too long for the window; a
/// circuit with too many elements. Otherwise the answer is every layer of the circuit after that many steps, or after
/// as many as can be made.
pub fn reply_view(
    alloc: Global,
    word: &[u8],
    windows: &Windows,
    steps: u64,
    bytes: &[u8],
) -> Result<Reply, NoMemory>
    requires { AreSmall (limits_of windows.now) }
    ensures { IfOk result (λ r. ViewReplies steps word.now (limits_of windows.now) bytes.now r.status r.text.items []) }
{
    match open_input(alloc, word, windows, bytes)? {
        OpenedInput::Refused(reply) => Ok(reply),
        OpenedInput::Made(table, translated, mut board) => {
            board.run(steps);
            Ok(Reply {
                text: layers_text(alloc, &table, &translated, &board)?,
                status: Status::Done,
            })
        }
    }
}

// The text of the view of the circuit of a table's machine: seven lines on its present configuration.
pub(crate) fn layers_text(
    alloc: Global,
    table: &Table,
    translated: &Translated,
    board: &Board,
) -> Result<Vec<u8>, NoMemory>
    requires { MayShow table.now translated.now board.now }
    ensures shown { IfOk result (λ text. (word : List ℕ) (l : Limits) (f : Flat)
        → IsBoardFor table.now.machine word l f translated.now board.now
        → TellsLayers table.now f board.now.config text.items) }
    ensures kept { IsBoardKept board.now }
{
    let layers = view(alloc, board, translated)?;
    view_text(alloc, table, translated, &layers)
}
