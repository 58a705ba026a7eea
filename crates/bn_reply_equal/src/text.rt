//! The lines of a comparison.

ghost use Rattle.std.specs.Prelude.{◌≡◌, ◌++◌, ℕ, IfOk, OnOk};
ghost use Rattle.bn_reply.specs.Lines.{line};
ghost use Rattle.bn_reply_equal.specs.EqualReply.{difference_text, output_text, sequence_text};

use bn_base::push_u64;
use bn_equal::Difference;
use bn_lists::NoMemory;
use bn_reply::push;
use std::alloc::Global;

/// The lines of a difference.
pub(crate) fn text_of(alloc: Global, difference: &Difference) -> Result<Vec<u8>, NoMemory>
    ensures { IfOk result (λ text. text.items
        ≡ difference_text difference.now.word.items difference.now.first difference.now.second) }
{
    let mut text = Vec::from_slice(alloc, b"differ")?;
    push_sequence(&mut text, difference.word.as_slice())?;
    push(&mut text, b"first ")?;
    push_output(&mut text, difference.first)?;
    push(&mut text, b"\nsecond ")?;
    push_output(&mut text, difference.second)?;
    push(&mut text, b"\n")?;
    Ok(text)
}

// Appends the lines of a sequence, each after a space, and ends the line.
fn push_sequence(text: &mut Vec<u8>, word: &[u32]) -> Result<(), NoMemory>
    ensures { OnOk result (text.new.items ≡ text.old.items ++ sequence_text word.now) }
{
    for input in word {
        push(text, b" ")?;
        push_u64(text, u64::from(*input) + 1)?;
    }
    push(text, b"\n")
}

// Appends an output line, or `-` if there is none.
fn push_output(text: &mut Vec<u8>, output: Option<u32>) -> Result<(), NoMemory>
    ensures { OnOk result (text.new.items ≡ text.old.items ++ output_text output) }
{
    match output {
        Some(line) => push_u64(text, u64::from(line) + 1),
        None => push(text, b"-"),
    }
}
