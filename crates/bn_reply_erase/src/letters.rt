//! A word of joint letters, and the letters of symbols.

ghost use Rattle.std.specs.Prelude.{◌≡◌, ◌<◌, ◌++◌, All, IfOk, OnOk, MatchOption, length};
ghost use Rattle.bn_reply.specs.Letters.{IsSymbolOf};
ghost use Rattle.bn_reply.specs.Opened.{IsOpenedWord};
ghost use Rattle.bn_reply.specs.Words.{IsLetterOf, letters_of};
ghost use Rattle.bn_reply_erase.specs.EraseReply.{lettered};

use bn_erase::Joined;
use bn_lists::NoMemory;
use bn_reply::{OpenedWord, foreign_letter};
use std::alloc::Global;

/// The blank's letter.
const BLANK: u8 = b'_';

/// Reads a word in the joint letters.
pub(crate) fn open_word(alloc: Global, joined: &Joined, word: &[u8]) -> Result<OpenedWord, NoMemory>
    ensures { IfOk result (IsOpenedWord (lettered joined.now) word.now) }
{
    let mut symbols = Vec::new(alloc);
    for (index, byte) in word.iter().enumerate() {
        let Some(symbol) = symbol_of(joined, *byte) else {
            return Ok(OpenedWord::Refused(foreign_letter(alloc, index + 1)?));
        };
        symbols.push(symbol)?;
    }
    Ok(OpenedWord::Symbols(symbols))
}

// The symbol of a byte, or `None` exactly if the byte is not a joint letter or is the blank's.
fn symbol_of(joined: &Joined, byte: u8) -> Option<u32>
    ensures { MatchOption result (¬ IsLetterOf (lettered joined.now) byte) (IsSymbolOf (lettered joined.now) byte) }
{
    let symbol = joined.symbol_of(byte)?;
    if byte == BLANK {
        return None;
    }
    Some(symbol)
}

/// Appends the letters of some symbols.
pub(crate) fn push_letters(
    text: &mut Vec<u8>,
    joined: &Joined,
    symbols: &[u32],
) -> Result<(), NoMemory>
    requires { All (λ symbol. symbol < length joined.now.letters) symbols.now }
    ensures { OnOk result (text.new.items ≡ text.old.items ++ letters_of (lettered joined.now) symbols.now) }
{
    for symbol in symbols {
        text.push(joined.letter(*symbol))?;
    }
    Ok(())
}
