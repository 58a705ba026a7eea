//! The command `generate`.

ghost use Rattle.std.specs.Prelude.{◌≡◌, IfOk, OnErr};
ghost use Rattle.bn_network_assembly.specs.Assembled.{limits_of};
ghost use Rattle.bn_gen.specs.Increments.{IsRoundCount};
ghost use Rattle.bn_gen.specs.Text.{increments_text};
ghost use Rattle.bn_reply.specs.Replying.{IsReplied, IsUnfinished};
ghost use Rattle.bn_reply_boards.specs.Running.{IsAnswered};
ghost use Rattle.bn_reply_boards.specs.GenerateReply.{GenerateReplies, title, window};

use crate::run::reply_run;
use bn_circuits::Watch;
use bn_gen::increments_text;
use bn_lists::NoMemory;
use bn_network_assembly::Windows;
use bn_reply::Reply;
use std::alloc::Global;

/// The number, in binary, to which the machine adds one k times.
const NUMBER: &[u8] = b"1011";

/// The answer of `generate` to a number of increments, from 1 to 4: a line with the number, and then the run of the
/// signal on the circuit of the machine of k increments and the word 1011, in a window of no cell left of cell 0, five
/// right of it, 10k + 1 steps, and an output of five cells. The place after each step is reported to the watch.
pub fn reply_generate<W: Watch>(alloc: Global, k: u32, watch: &mut W) -> Result<Reply, NoMemory>
    requires { IsRoundCount k }
    ensures replied { IfOk result (λ r. IsReplied (GenerateReplies k) r (W.told watch.old) (W.told watch.new)) }
    ensures interrupted { OnErr result (IsUnfinished (GenerateReplies k) (W.told watch.old) (W.told watch.new)) }
{
    let table = increments_text(alloc, k)?;
    let first_line = title_of(alloc, k)?;
    run_behind(alloc, first_line, k, table.as_slice(), watch)
}

// The first line.
fn title_of(alloc: Global, k: u32) -> Result<Vec<u8>, NoMemory>
    ensures { IfOk result (λ text. text.items ≡ title k) }
{
    Ok(format!(in alloc; "increments {k}\n")?.into_bytes())
}

// The window.
fn window_of(k: u32) -> Windows
    requires { IsRoundCount k }
    ensures { limits_of result ≡ window k }
{
    Windows {
        left1: 0,
        right1: 5,
        right2: 10 * k + 1,
        right3: 5,
    }
}

// The first line, and the run after it.
fn run_behind<W: Watch>(
    alloc: Global,
    first_line: Vec<u8>,
    k: u32,
    table: &[u8],
    watch: &mut W,
) -> Result<Reply, NoMemory>
    requires count { IsRoundCount k }
    requires title { first_line.items ≡ title k }
    requires table { table.now ≡ increments_text k }
    ensures { IsAnswered (GenerateReplies k) result (W.told watch.old) (W.told watch.new) }
{
    let mut text = first_line;
    let reply = reply_run(alloc, NUMBER, &window_of(k), None, table, watch)?;
    text.extend_from_slice(reply.text.as_slice())?;
    Ok(Reply {
        text,
        status: reply.status,
    })
}
