//! A sink into memory that grows.
ghost use Rattle.std.specs.Prelude.{◌≡◌, ℕ, ◌<◌, ◌≤◌, List, [], length, take, Some, IfOk, OnErr, is_ok, if◌then◌else◌};
ghost use Rattle.bn_io.specs.Faults.{HasCause, counted};
ghost use Rattle.bn_io.specs.Told.{Grows};

use crate::sinks::{Sink, SinkFailed};
use std::alloc::Global;
use std::marker::Model;

/// A sink into memory that grows with its content, and takes all bytes that it is given. It fails only if memory runs
/// out. Contracts see the bytes taken and the count of failures.
#[derive(Drop)]
pub struct VecSink {
    bytes: Vec<u8>,
    faults: u64,
}

impl Model for VecSink {
    ghost Value = { List ℕ × ℕ };

    ghost view = { λ s. (s.bytes.items, s.faults) };
}

impl VecSink {
    /// An empty sink that has counted no fault. It takes no memory yet.
    pub fn new(alloc: Global) -> VecSink
        ensures { result ≡ ([], 0) }
    {
        VecSink {
            bytes: Vec::new(alloc),
            faults: 0,
        }
    }

    /// The bytes taken, in their order.
    pub fn into_bytes(self) -> Vec<u8>
        ensures { result.items ≡ self.0 }
    {
        self.bytes
    }
}

impl Sink for VecSink {
    ghost taken = { λ s. Some s.0 };

    ghost faults = { λ s. s.1 };

    fn give(&mut self, bytes: &[u8]) -> Result<usize, SinkFailed>
        requires { 0 < length bytes.now }
        ensures counts { self.new.1 ≡ (if is_ok result then self.old.1 else counted self.old.1) }

        ensures bound { IfOk result (λ c. (0 < c) × (c ≤ length bytes.now)) }
        ensures grown { IfOk result (λ c. Grows (Some self.old.0) (Some self.new.0) (take c bytes.now)) }
        ensures kept { OnErr result (self.new.0 ≡ self.old.0) }
        ensures cause { HasCause self.old.1 self.new.1 result }
    {
        match self.bytes.extend_from_slice(bytes) {
            Ok(()) => Ok(bytes.len()),
            Err(_) => {
                self.faults = self.faults.saturating_add(1);
                Err(SinkFailed)
            }
        }
    }
}
