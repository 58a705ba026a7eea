//! A law on the constants: its function does nothing, and its contract is the law.

ghost use Rattle.std.specs.Prelude.{◌≡◌};

use crate::giving::PIECE;
use crate::reading::CHUNK;

/// `PIECE` is 4,096 bytes, and `CHUNK` 65,536.
pub fn sizes_are_stated()
    ensures piece { PIECE ≡ 4096 }
    ensures chunk { CHUNK ≡ 65536 }
{}
