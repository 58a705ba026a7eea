//! The command `run` with the automatic window.

ghost use Rattle.std.specs.Prelude.{◌≢◌, IfOk, OnErr};
ghost use Rattle.bn_reply.specs.Replying.{IsReplied, IsUnfinished};
ghost use Rattle.bn_reply_boards.specs.Running.{IsAnswered};
ghost use Rattle.bn_headline.specs.AutoReply.{AutoReplies, FindReplies};
ghost use Rattle.bn_headline.specs.Asked.{IsRead};
ghost use Rattle.bn_headline.specs.Told.{HearsSearch, TellsSearch};

use crate::rounds::run_rounds;
use bn_base::MOST_COUNT;
use bn_bennett::Translated;
use bn_circuits::Watch;
use bn_lists::NoMemory;
use bn_reply::{Reply, Status, too_long};
use bn_reply_boards::{OpenedMachine, open_machine};
use bn_table::Table;
use std::alloc::Global;

/// The answer of `run` with `auto` to a word and some bytes: a refusal if they are not a table with a machine in
/// standard form, the word is not one of its letters, or it has too many; otherwise, from the first window on, the run
/// of the signal on the circuit of each window to its exit, until the signal leaves by no end of a tape, or the next
/// circuit would have too many elements. The places of all rounds are reported to the watch, one round after another.
/// The answer reports what the search by the machine's own bounded runs finds.
pub fn reply_run_auto<W: Watch>(
    alloc: Global,
    word: &[u8],
    bytes: &[u8],
    watch: &mut W,
) -> Result<Reply, NoMemory>
    ensures replied { IfOk result (λ r. IsReplied (AutoReplies word.now bytes.now) r (W.told watch.old)
        (W.told watch.new)) }
    ensures interrupted { OnErr result (IsUnfinished (AutoReplies word.now bytes.now) (W.told watch.old)
        (W.told watch.new)) }
    ensures found { IfOk result (λ r. TellsSearch bytes.now word.now r.status r.text.items) }
    ensures told { IfOk result (λ r. HearsSearch bytes.now word.now (W.told watch.old) (W.told watch.new)) }
    ensures inside { IfOk result (λ r. (r.status ≢ Status.Window) × (r.status ≢ Status.Inside)) }
{
    answer_auto(alloc, word, bytes, watch)
}

// The same by the circuits alone.
fn answer_auto<W: Watch>(
    alloc: Global,
    word: &[u8],
    bytes: &[u8],
    watch: &mut W,
) -> Result<Reply, NoMemory>
    ensures replied { IfOk result (λ r. IsReplied (AutoReplies word.now bytes.now) r (W.told watch.old)
        (W.told watch.new)) }
    ensures interrupted { OnErr result (IsUnfinished (AutoReplies word.now bytes.now) (W.told watch.old)
        (W.told watch.new)) }
{
    match open_machine(alloc, word, bytes)? {
        OpenedMachine::Refused(reply) => Ok(reply),
        OpenedMachine::Made(table, translated, symbols) => {
            auto_symbols(alloc, &table, &translated, symbols.as_slice(), watch)
        }
    }
}

// The answer for a table's machine, by its translation, and a word of these symbols.
fn auto_symbols<W: Watch>(
    alloc: Global,
    table: &Table,
    translated: &Translated,
    symbols: &[u32],
    watch: &mut W,
) -> Result<Reply, NoMemory>
    requires { IsRead table.now translated.now symbols.now }
    ensures { IsAnswered (FindReplies table.now symbols.now) result (W.told watch.old) (W.told watch.new) }
{
    let letters = symbols.len();
    if letters as u64 > MOST_COUNT {
        return too_long(alloc, letters);
    }
    run_rounds(alloc, table, translated, symbols, watch)
}
