//! The letters of a table and the symbols of a word.

ghost use Rattle.std.specs.Prelude.{◌≡◌, ◌<◌, ◌++◌, All, OnOk, OnErr, MatchOption};
ghost use Rattle.bn_reply.specs.Fronts.{GrewInPart};
ghost use Rattle.bn_reply.specs.Letters.{IsSymbolOf};
ghost use Rattle.bn_reply.specs.Words.{IsLetterOf, letters_of};

use bn_lists::NoMemory;
use bn_table::Table;

/// The blank's letter.
const BLANK: u8 = b'_';

/// The symbol of a byte, or `None` exactly if the byte is not a letter of the table or is the blank's letter.
pub(crate) fn symbol_of(table: &Table, byte: u8) -> Option<u32>
    ensures { MatchOption result (¬ IsLetterOf table.now byte) (IsSymbolOf table.now byte) }
{
    let symbol = table.symbol_of(byte)?;
    if byte == BLANK {
        return None;
    }
    Some(symbol)
}

/// Appends the letters of some symbols. After `NoMemory` the text may end with the letters of the first symbols.
pub fn push_letters(text: &mut Vec<u8>, table: &Table, symbols: &[u32]) -> Result<(), NoMemory>
    requires { All (λ symbol. symbol < table.now.machine.symbols) symbols.now }
    ensures added { OnOk result (text.new.items ≡ text.old.items ++ letters_of table.now symbols.now) }
    ensures refused { OnErr result (GrewInPart text.old.items text.new.items (letters_of table.now symbols.now)) }
{
    for symbol in symbols {
        text.push(table.letter(*symbol))?;
    }
    Ok(())
}
