//! The arguments of a call, from one run of bytes.

ghost use Rattle.std.specs.Prelude.{◌≡◌, ◌==◌, map, IfOk};
ghost use Rattle.std.specs.List.{slice_split};
ghost use Rattle.std.specs.String.{string_bytes};
ghost use Rattle.bn_embed.specs.Words.{words_of};

use bn_lists::NoMemory;
use std::alloc::Global;

// The arguments of a run of bytes.
pub(crate) fn split_words(alloc: Global, bytes: &[u8]) -> Result<Vec<String>, NoMemory>
    ensures { IfOk result (λ words. map string_bytes words.items ≡ words_of bytes.now) }
{
    match str::from_utf8(bytes) {
        Ok(text) => split_text(alloc, text),
        Err(_) => Ok(Vec::new(alloc)),
    }
}

// The parts of a text between bytes 0.
fn split_text(alloc: Global, text: &str) -> Result<Vec<String>, NoMemory>
    ensures { IfOk result (λ words. map string_bytes words.items ≡ slice_split (λ b. b == 0) text.now) }
{
    let mut words = Vec::new(alloc);
    for word in text.split('\0') {
        words.push(String::from_str(alloc, word)?)?;
    }
    Ok(words)
}
