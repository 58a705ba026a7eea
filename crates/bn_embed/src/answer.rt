//! The call.

ghost use Rattle.std.specs.Prelude.{◌≡◌, ◌++◌, ◌≤◌, ◌↔◌, None, IfOk, IsTrue, length, take, drop};
ghost use Rattle.bn_top.specs.Headlines.{IsReplyTo};
ghost use Rattle.bn_embed.specs.Call.{Ends};
ghost use Rattle.bn_embed.specs.Words.{words_of};

use crate::split::split_words;
use bn_circuits::Quiet;
use bn_lists::NoMemory;
use bn_top::{Reply, Status, reply_in_memory};
use std::alloc::Global;

/// Runs the command of the arguments, which bytes 0 separate, on an input: writes the answer's text to the front of
/// `output`, and returns the code of its status. `taken` receives the length of the whole text in bytes. If `output`
/// has room for fewer, it is filled with a prefix of the text, and the code is 8; a call with enough room returns the
/// answer. If memory runs out, the code is 9, `taken` receives 0, and `output` is unchanged. Arguments that are not
/// UTF-8 have the answer of no arguments.
#[unsafe(no_mangle)]
pub extern "C" fn hithwelor_answer(
    alloc: Global,
    words: &[u8],
    input: &[u8],
    output: &mut [u8],
    taken: &mut u64,
) -> u32
    ensures { Ends (words_of words.now) input.now output.old output.new result taken.new }
{
    let Ok(reply) = reply_to(alloc, words, input) else {
        *taken = 0;
        return u32::from(Status::NoMemory.code());
    };
    let text = reply.text.as_slice();
    *taken = text.len() as u64;
    if lay(text, output) {
        u32::from(reply.status.code())
    } else {
        u32::from(Status::WriteFault.code())
    }
}

// The reply to the arguments in a run of bytes, and an input.
fn reply_to(alloc: Global, words: &[u8], input: &[u8]) -> Result<Reply, NoMemory>
    ensures { IfOk result (λ r. IsReplyTo (words_of words.now) input.now r None None) }
{
    let words = split_words(alloc, words)?;
    reply_in_memory(alloc, words.as_slice(), input, &mut Quiet)
}

// Copies as much of a text to the front of an output as there is room for, and returns whether that is all of it.
fn lay(text: &[u8], output: &mut [u8]) -> bool
    ensures laid { output.new ≡ take (length output.old) text.now ++ drop (length text.now) output.old }
    ensures whole { IsTrue result ↔ (length text.now ≤ length output.old) }
{
    let count = text.len().min(output.len());
    output[..count].copy_from_slice(&text[..count]);
    count == text.len()
}
