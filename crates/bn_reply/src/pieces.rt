//! Pieces of a text.

ghost use Rattle.std.specs.Prelude.{◌≡◌, ◌++◌, ◌∷◌, [], decimal, OnOk, OnErr};
ghost use Rattle.bn_reply.specs.Lines.{line, position_text};
ghost use Rattle.bn_reply.specs.Fronts.{GrewInPart};

use bn_base::push_u64;
use bn_lists::NoMemory;

/// Appends some bytes. After `NoMemory` the text is unchanged.
pub fn push(text: &mut Vec<u8>, bytes: &[u8]) -> Result<(), NoMemory>
    ensures added { OnOk result (text.new.items ≡ text.old.items ++ bytes.now) }
    ensures refused { OnErr result (text.new.items ≡ text.old.items) }
{
    text.extend_from_slice(bytes)?;
    Ok(())
}

/// Appends a line that consists of a word and a number. After `NoMemory` the text may end with a prefix of the line.
pub fn push_counted(text: &mut Vec<u8>, word: &[u8], number: u64) -> Result<(), NoMemory>
    ensures added { OnOk result (text.new.items ≡ text.old.items ++ line (word.now ∷ decimal number ∷ [])) }
    ensures refused { OnErr result
        (GrewInPart text.old.items text.new.items (line (word.now ∷ decimal number ∷ []))) }
{
    push(text, word)?;
    push_u64(text, number)?;
    push(text, b"\n")
}

/// Appends a position on a tape in decimal digits, with a sign if it is below 0. After `NoMemory` the text may end
/// with a prefix of it.
pub fn push_position(text: &mut Vec<u8>, position: i64) -> Result<(), NoMemory>
    ensures added { OnOk result (text.new.items ≡ text.old.items ++ position_text position) }
    ensures refused { OnErr result (GrewInPart text.old.items text.new.items (position_text position)) }
{
    if position < 0 {
        push(text, b"-")?;
    }
    push_u64(text, position.unsigned_abs())
}
