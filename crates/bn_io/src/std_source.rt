//! A source over a reader of std.
ghost use Rattle.std.specs.Prelude.{◌≡◌, ℕ, ◌<◌, ◌≤◌, length, take, None, IfOk, OnOk, OnErr, is_ok, if◌then◌else◌};
ghost use Rattle.std.specs.Io.KnownBytes.{ReadConsumes};
ghost use Rattle.bn_io.specs.Faults.{HasCause, counted};

use crate::sources::{Source, SourceFailed};
use std::io::Read;
use std::marker::Model;

/// A source over a reader. It makes nothing known of the bytes that the reader will give. Contracts see the reader and
/// the count of failures.
#[derive(Drop)]
pub struct StdSource<R> {
    inner: R,
    faults: u64,
}

impl<R> Model for StdSource<R> {
    ghost Value = { R × ℕ };

    ghost view = { λ s. (s.inner, s.faults) };
}

impl<R: Read> StdSource<R> {
    /// A source over `inner` that has counted no fault. It takes no memory.
    pub fn new(inner: R) -> StdSource<R>
        ensures { result ≡ (inner, 0) }
    {
        StdSource { inner, faults: 0 }
    }
}

impl<R: Read> Source for StdSource<R> {
    ghost left = { λ _. None };

    ghost faults = { λ s. s.1 };

    ghost open = { λ _. Unit {0} };

    ghost overrun = { λ _. ⊥ };

    fn take(&mut self, into: &mut [u8]) -> Result<usize, SourceFailed>
        requires { 0 < length into.old }
        ensures reads { ReadConsumes (R.remaining self.old.0) (R.remaining self.new.0) result into.new }
        ensures counts { self.new.1 ≡ (if is_ok result then self.old.1 else counted self.old.1) }

        ensures bound { IfOk result (λ c. c ≤ length into.old) }
        ensures cause { HasCause self.old.1 self.new.1 result }
    {
        match self.inner.read(into) {
            Ok(count) => Ok(count),
            Err(_) => {
                self.faults = self.faults.saturating_add(1);
                Err(SourceFailed)
            }
        }
    }
}
