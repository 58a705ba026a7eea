//! The search for a window, round by round.

ghost use Rattle.std.specs.Prelude.{◌≡◌};
ghost use Rattle.bn_headline.specs.AutoReply.{SearchReplies};
ghost use Rattle.bn_reply_boards.specs.Running.{IsAnswered};
ghost use Rattle.bn_headline.specs.Asked.{IsAsked, IsReady};

use crate::round::{Round, run_round};
use bn_bennett::Translated;
use bn_circuits::{MOST_ELEMENTS, Watch};
use bn_lists::NoMemory;
use bn_network_assembly::{first_windows, widen};
use bn_reply::Reply;
use bn_table::Table;
use std::alloc::Global;

/// The most rounds: each adds at least one element, and none is made on a circuit that is too large.
const MOST_ROUNDS: u64 = MOST_ELEMENTS + 2;

// The answer for a table's machine and a word of these symbols, by the translation of the machine: round by round,
// from the first window on, until the signal leaves by no end of a tape or the next circuit would be too large. The
// places of all rounds are reported to the watch, one round after another.
pub(crate) fn run_rounds<W: Watch>(
    alloc: Global,
    table: &Table,
    translated: &Translated,
    symbols: &[u32],
    watch: &mut W,
) -> Result<Reply, NoMemory>
    requires given { IsAsked table.now symbols.now }
    requires ready { IsReady table.now symbols.now translated.now }
    ensures { IsAnswered (SearchReplies table.now symbols.now) result (W.told watch.old) (W.told watch.new) }
{
    let mut windows = first_windows(symbols);
    for round in 0..MOST_ROUNDS {
        match run_round(alloc, table, translated, symbols, &windows, watch)? {
            Round::Ended(reply) => return Ok(reply),
            Round::Short(tape, side) => windows = widen(&windows, tape, side),
        }
    }
    unreachable!()
}
