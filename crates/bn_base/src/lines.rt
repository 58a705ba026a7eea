//! The lines of a text.
ghost use Rattle.std.specs.Prelude.{◌≡◌};

use memchr::memchr;
use std::marker::Model;

/// The next line of a text.
#[derive(Clone, Copy, Debug, PartialEq, Eq)]
pub enum NextLine<'a> {
    /// A line that ended with byte 10, without that byte.
    Whole(&'a [u8]),
    /// The bytes after the last byte 10, if there are any.
    Cut(&'a [u8]),
    /// Nothing is left.
    End,
}

/// The lines of a text of bytes, one after the other. Callers see it as the bytes that are left.
#[derive(Drop)]
pub struct Lines<'a> {
    rest: &'a [u8],
}

impl<'a> Model for Lines<'a> {
    ghost use Rattle.std.specs.Prelude.{ℕ, List};

    ghost Value = { List ℕ };

    ghost view = { λ s. s.rest.now };
}

impl<'a> Lines<'a> {
    ghost use Rattle.bn_base.specs.LentLine.{GivesLine};
    ghost use Rattle.std.specs.Borrow.{sem};

    /// The lines of `bytes`, from the first on. Allocates no memory.
    pub fn new(bytes: &[u8]) -> Lines<'_>
        ensures { result ≡ bytes.now }
    {
        Lines { rest: bytes }
    }

    /// The next line, or the rest of the text if no byte 10 is left in it. Allocates no memory.
    pub fn next_line(&mut self) -> NextLine
        ensures* { sem 𝓛 (GivesLine self.entry result) }
    {
        let rest = self.rest;
        match memchr(b'\n', rest) {
            Some(end) => {
                self.rest = &rest[end + 1..];
                NextLine::Whole(&rest[..end])
            }
            None if rest.is_empty() => NextLine::End,
            None => {
                self.rest = &rest[rest.len()..];
                NextLine::Cut(rest)
            }
        }
    }
}
