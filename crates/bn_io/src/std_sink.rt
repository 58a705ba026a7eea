//! A sink over a writer of std.
ghost use Rattle.std.specs.Prelude.{◌≡◌, ℕ, ◌<◌, ◌≤◌, length, take, None, IfOk, OnOk, OnErr, is_ok, if◌then◌else◌};
ghost use Rattle.std.specs.Io.KnownBytes.{WriteAppends, Keeps};
ghost use Rattle.bn_io.specs.Faults.{HasCause, counted};

use crate::sinks::{Sink, SinkFailed};
use std::io::Write;
use std::marker::Model;

/// A sink over a writer. It makes nothing known of the bytes that the writer has taken. Contracts see the writer and
/// the count of failures. A writer that takes no byte of a piece counts as failing. The sink never flushes: `W` must
/// be a writer without a buffer, or one that its owner flushes.
#[derive(Drop)]
pub struct StdSink<W> {
    inner: W,
    faults: u64,
}

impl<W> Model for StdSink<W> {
    ghost Value = { W × ℕ };

    ghost view = { λ s. (s.inner, s.faults) };
}

impl<W: Write> StdSink<W> {
    /// A sink over `inner` that has counted no fault. It takes no memory.
    pub fn new(inner: W) -> StdSink<W>
        ensures { result ≡ (inner, 0) }
    {
        StdSink { inner, faults: 0 }
    }
}

impl<W: Write> Sink for StdSink<W> {
    ghost taken = { λ _. None };

    ghost faults = { λ s. s.1 };

    fn give(&mut self, bytes: &[u8]) -> Result<usize, SinkFailed>
        requires { 0 < length bytes.now }
        ensures writes { OnOk result
            (WriteAppends (W.contents self.old.0) (W.contents self.new.0) result bytes.now) }
        ensures kept { OnErr result (Keeps (W.contents self.old.0) (W.contents self.new.0)) }
        ensures counts { self.new.1 ≡ (if is_ok result then self.old.1 else counted self.old.1) }

        ensures bound { IfOk result (λ c. (0 < c) × (c ≤ length bytes.now)) }
        ensures cause { HasCause self.old.1 self.new.1 result }
    {
        match self.inner.write(bytes) {
            Ok(count) if count > 0 => Ok(count),
            _ => {
                self.faults = self.faults.saturating_add(1);
                Err(SinkFailed)
            }
        }
    }
}
