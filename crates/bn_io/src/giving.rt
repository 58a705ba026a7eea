//! Giving a text to a sink in pieces.
ghost use Rattle.std.specs.Prelude.{◌≡◌, ◌+◌, ◌<◌, ◌≤◌, ◌++◌, ℕ, List, drop, vec_len, OnOk, OnErr};
ghost use Rattle.bn_io.specs.Faults.{Rose};
ghost use Rattle.bn_io.specs.Told.{Grows, GrowsByFront};

use crate::sinks::Sink;
use crate::writing::{WriteFault, write_all};

/// The number of bytes in each piece, except the last, when a text is given to a sink in pieces.
pub const PIECE: usize = 4096;

/// Gives all whole pieces of `text` to the sink, and leaves the bytes after them in `text`, fewer than a piece. The
/// error is `WriteFault` only if the sink's count of faults rose in this call or is at its last value, and the sink has
/// then taken a prefix of `text`; otherwise the count is unchanged. Allocates no memory.
pub fn give_pieces<K: Sink>(sink: &mut K, text: &mut Vec<u8>) -> Result<(), WriteFault>
    ensures given { OnOk result ((pieces : List ℕ) × (text.old.items ≡ pieces ++ text.new.items)
        × Grows (K.taken sink.old) (K.taken sink.new) pieces) }
    ensures short { OnOk result (vec_len text.new < PIECE) }
    ensures front { OnErr result (GrowsByFront (K.taken sink.old) (K.taken sink.new) text.old.items) }
    ensures later { K.faults sink.old ≤ K.faults sink.new }
    ensures write_fault { OnErr result (Rose (K.faults sink.old) (K.faults sink.new)) }
    ensures kept { OnOk result (K.faults sink.new ≡ K.faults sink.old) }
{
    while text.len() >= PIECE {
        give_piece(sink, text)?;
    }
    Ok(())
}

// Gives the first piece of `text`, and leaves the bytes after it in `text`.
fn give_piece<K: Sink>(sink: &mut K, text: &mut Vec<u8>) -> Result<(), WriteFault>
    requires { PIECE ≤ vec_len text.old }
    ensures given { OnOk result ((piece : List ℕ) × (text.old.items ≡ piece ++ text.new.items)
        × Grows (K.taken sink.old) (K.taken sink.new) piece) }
    ensures shorter { OnOk result (vec_len text.new + PIECE ≡ vec_len text.old) }
    ensures front { OnErr result (GrowsByFront (K.taken sink.old) (K.taken sink.new) text.old.items) }
    ensures later { K.faults sink.old ≤ K.faults sink.new }
    ensures write_fault { OnErr result (Rose (K.faults sink.old) (K.faults sink.new)) }
    ensures kept { OnOk result (K.faults sink.new ≡ K.faults sink.old) }
{
    let piece = &text.as_slice()[..PIECE];
    write_all(sink, piece)?;
    drop_piece(text);
    Ok(())
}

// Removes the first piece.
fn drop_piece(text: &mut Vec<u8>)
    requires { PIECE ≤ vec_len text.old }
    ensures { text.new.items ≡ drop PIECE text.old.items }
{
    let rest = text.len() - PIECE;
    text.copy_within(PIECE.., 0);
    text.truncate(rest);
}
