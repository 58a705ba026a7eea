//! A source over bytes in memory.
ghost use Rattle.std.specs.Prelude.{◌≡◌, ◌↔◌, ℕ, ◌<◌, ◌≤◌, List, [], ◌++◌, length, take, drop, Option, Some, IsErr};
ghost use Rattle.std.specs.Prelude.{OnErr, IfOk, IfSome};
ghost use Rattle.bn_io.specs.Faults.{HasCause};
ghost use Rattle.bn_io.specs.Told.{Loses};
ghost use Rattle.bn_io.specs.Memory.{MemoryInput, InputFails, given, input_failed, input_less};

use crate::sources::{Source, SourceFailed};
use std::marker::Model;

/// A source over bytes in memory, for tests and for input that is already read. Its maker sets the most bytes that one
/// call gives, and the calls that fail.
#[derive(Drop)]
pub struct MemSource {
    bytes: Vec<u8>,
    next: usize,
    piece: usize,
    failing: Vec<u64>,
    calls: u64,
    faults: u64,
}

impl Model for MemSource {
    ghost Value = { MemoryInput };

    ghost view = { λ s. record {
      left = drop s.next s.bytes.items;
      piece = s.piece;
      failing = s.failing.items;
      calls = s.calls;
      faults = s.faults;
    } };

    ghost invariant = { λ s. (s.next ≤ length s.bytes.items) × (0 < s.piece) };
}

impl MemSource {
    /// A source of `bytes` that gives at most `piece` of them per call, where `piece` is at least 1.
    /// It fails in the calls whose numbers, counted from 1, are in `failing`. Its count of faults
    /// begins at 0, each failure adds one, and at its last value it stays. It takes no memory.
    pub fn new(bytes: Vec<u8>, piece: usize, failing: Vec<u64>) -> MemSource
        requires { 0 < piece }
        ensures { result ≡ record {
          left = bytes.items;
          piece = piece;
          failing = failing.items;
          calls = 0;
          faults = 0;
        } }
    {
        MemSource {
            bytes,
            next: 0,
            piece,
            failing,
            calls: 0,
            faults: 0,
        }
    }
}

impl Source for MemSource {
    ghost left = { λ s. Some s.left };

    ghost faults = { λ s. s.faults };

    ghost open = { λ _. Unit {0} };

    ghost overrun = { λ _. ⊥ };

    fn take(&mut self, into: &mut [u8]) -> Result<usize, SourceFailed>
        requires { 0 < length into.old }
        ensures fails { IsErr result ↔ InputFails self.old }
        ensures failed { OnErr result (self.new ≡ input_failed self.old) }
        ensures untouched { OnErr result (into.new ≡ into.old) }
        ensures amount { IfOk result (λ c. c ≡ given self.old (length into.old)) }
        ensures gives { IfOk result (λ c. into.new ≡ take c self.old.left ++ drop c into.old) }
        ensures rest { IfOk result (λ c. self.new ≡ input_less self.old c) }

        ensures bound { IfOk result (λ c. c ≤ length into.old) }
        ensures given { IfOk result (λ c.
            Loses (Some self.old.left) (Some self.new.left) (take c into.new)) }
        ensures ended { IfOk result (λ c. (c ≡ 0) ↔ (self.old.left ≡ [])) }
        ensures kept { OnErr result (self.new.left ≡ self.old.left) }
        ensures cause { HasCause self.old.faults self.new.faults result }
    {
        self.calls = self.calls.saturating_add(1);
        if self.failing.contains(&self.calls) {
            self.faults = self.faults.saturating_add(1);
            return Err(SourceFailed);
        }
        let count = self.piece.min(into.len()).min(self.bytes.len() - self.next);
        into[..count].copy_from_slice(&self.bytes[self.next..self.next + count]);
        self.next += count;
        Ok(count)
    }
}
