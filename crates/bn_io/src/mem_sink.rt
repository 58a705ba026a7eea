//! A sink into memory.
ghost use Rattle.std.specs.Prelude.{◌≡◌, ◌↔◌, ℕ, ◌<◌, ◌≤◌, List, [], ◌++◌, length, take, vec_capacity, Option, Some};
ghost use Rattle.std.specs.Prelude.{IsErr, OnErr, IfOk, IfSome};
ghost use Rattle.bn_io.specs.Faults.{HasCause};
ghost use Rattle.bn_io.specs.Told.{Grows};
ghost use Rattle.bn_io.specs.Memory.{MemoryOutput, OutputFails, accepted, output_failed, output_more};

use crate::sinks::{Sink, SinkFailed};
use bn_lists::NoMemory;
use std::alloc::Global;
use std::marker::Model;

/// A sink into memory, for tests and for stored output. Its maker sets its room, the most bytes that one call takes,
/// and the calls that fail.
#[derive(Drop)]
pub struct MemSink {
    bytes: Vec<u8>,
    room: usize,
    piece: usize,
    failing: Vec<u64>,
    calls: u64,
    faults: u64,
}

impl Model for MemSink {
    ghost Value = { MemoryOutput };

    ghost view = { λ s. record {
      taken = s.bytes.items;
      room = s.room;
      piece = s.piece;
      failing = s.failing.items;
      calls = s.calls;
      faults = s.faults;
    } };

    ghost invariant = { λ s.
        (length s.bytes.items ≤ s.room) × (s.room ≤ vec_capacity s.bytes) × (0 < s.piece) };
}

impl MemSink {
    /// An empty sink with room for `room` bytes, which takes at most `piece` of them per call, where `piece` is at
    /// least 1. It fails in the calls whose numbers, counted from 1, are in `failing`, and when it has no room left.
    /// Its count of faults begins at 0, each failure adds one, and at its last value it stays. It allocates all its
    /// memory here.
    pub fn try_new(
        alloc: Global,
        room: usize,
        piece: usize,
        failing: Vec<u64>,
    ) -> Result<MemSink, NoMemory>
        requires { 0 < piece }
        ensures { IfOk result (λ s. s ≡ record {
          taken = [];
          room = room;
          piece = piece;
          failing = failing.items;
          calls = 0;
          faults = 0;
        }) }
    {
        let bytes = Vec::with_capacity(alloc, room)?;
        Ok(MemSink {
            bytes,
            room,
            piece,
            failing,
            calls: 0,
            faults: 0,
        })
    }

    /// The bytes taken so far, in their order.
    pub fn taken(&self) -> &[u8]
        ensures { result.now ≡ self.now.taken }
    {
        self.bytes.as_slice()
    }
}

impl Sink for MemSink {
    ghost taken = { λ s. Some s.taken };

    ghost faults = { λ s. s.faults };

    fn give(&mut self, bytes: &[u8]) -> Result<usize, SinkFailed>
        requires { 0 < length bytes.now }
        ensures fails { IsErr result ↔ OutputFails self.old }
        ensures failed { OnErr result (self.new ≡ output_failed self.old) }
        ensures amount { IfOk result (λ c. c ≡ accepted self.old (length bytes.now)) }
        ensures more { IfOk result (λ c. self.new ≡ output_more self.old (take c bytes.now)) }

        ensures bound { IfOk result (λ c. (0 < c) × (c ≤ length bytes.now)) }
        ensures grown { IfOk result (λ c.
            Grows (Some self.old.taken) (Some self.new.taken) (take c bytes.now)) }
        ensures kept { OnErr result (self.new.taken ≡ self.old.taken) }
        ensures cause { HasCause self.old.faults self.new.faults result }
    {
        self.calls = self.calls.saturating_add(1);
        let free = self.room - self.bytes.len();
        if free == 0 || self.failing.contains(&self.calls) {
            self.faults = self.faults.saturating_add(1);
            return Err(SinkFailed);
        }
        let count = self.piece.min(bytes.len()).min(free);
        match self.bytes.extend_from_slice(&bytes[..count]) {
            Ok(()) => Ok(count),
            Err(_) => unreachable!(),
        }
    }
}
