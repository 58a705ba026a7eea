//! A line of a text, assembled before it is appended to the text.

ghost use Rattle.std.specs.Prelude.{◌≡◌, ◌+◌, ◌<◌, ◌≤◌, ◌++◌, ◌∷◌, [], length, decimal};

use itoa::write_digits;
use std::marker::Model;

/// The greatest number of bytes of a line that is assembled: no line of any form is longer.
pub(crate) const ROOM: usize = 128;

/// A line that is assembled in one buffer from its end to its beginning, so that it is appended at once. Contracts see
/// the bytes written so far.
#[derive(Drop)]
pub(crate) struct LineBuffer {
    bytes: [u8; ROOM],
    begin: usize,
}

impl Model for LineBuffer {
    ghost use Rattle.std.specs.Prelude.{ℕ, List, ◌≡◌, ◌≤◌, length, drop};

    ghost Value = { List ℕ };

    ghost view = { λ l. drop l.begin l.bytes };

    ghost invariant = { λ l. l.begin ≤ length l.bytes };
}

impl LineBuffer {
    /// The end of a line: only its byte 10.
    pub(crate) fn new() -> LineBuffer
        ensures { result ≡ 10 ∷ [] }
    {
        let mut line = LineBuffer {
            bytes: [0; ROOM],
            begin: ROOM,
        };
        line.put(b'\n');
        line
    }

    /// Puts a byte before the bytes written so far.
    #[inline]
    pub(crate) fn put(&mut self, byte: u8)
        requires { length self.old < ROOM }
        ensures { self.new ≡ byte ∷ self.old }
    {
        self.begin -= 1;
        self.bytes[self.begin] = byte;
    }

    /// Puts a number before the bytes written so far.
    #[inline]
    pub(crate) fn put_number(&mut self, number: u64)
        requires { length self.old + 20 ≤ ROOM }
        ensures text { self.new ≡ decimal number ++ self.old }
        ensures short { length self.new ≤ length self.old + 20 }
    {
        self.begin = write_digits(number, &mut self.bytes, self.begin);
    }

    /// The bytes written so far.
    #[inline]
    pub(crate) fn as_slice(&self) -> &[u8]
        ensures { result.now ≡ self.now }
    {
        &self.bytes[self.begin..]
    }
}
