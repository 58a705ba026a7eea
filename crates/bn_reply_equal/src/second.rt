//! A refusal of the second table.

ghost use Rattle.std.specs.Prelude.{◌≡◌, ◌<◌, ◌==◌, ℕ, Contains, IfOk, IfNone, IfSome, length, position};
ghost use Rattle.bn_reply_equal.specs.Second.{with_second};

use bn_lists::NoMemory;
use std::alloc::Global;

/// The refusal as one of the second table: `second` and a space follow its first space.
pub(crate) fn second_text(alloc: Global, told: &[u8]) -> Result<Vec<u8>, NoMemory>
    ensures { IfOk result (λ text. text.items ≡ with_second told.now) }
{
    let behind = match first_space(told) {
        Some(space) => space + 1,
        None => return Ok(Vec::from_slice(alloc, told)?),
    };
    let mut text = Vec::from_slice(alloc, &told[..behind])?;
    text.extend_from_slice(b"second ")?;
    text.extend_from_slice(&told[behind..])?;
    Ok(text)
}

// The place of the first space, counted from 0.
fn first_space(told: &[u8]) -> Option<usize>
    ensures place { result ≡ position (λ byte. byte == 32) told.now }
    ensures within { IfSome result (λ place. place < length told.now) }
    ensures none { IfNone result (¬ Contains told.now 32) }
{
    told.iter().position(|byte| *byte == b' ')
}
