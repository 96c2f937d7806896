//! A sink that keeps what it takes in memory, of a given capacity, and of which given calls fail.
ghost use Rattle.std.specs.Prelude.{◌≡◌, ◌↔◌, ◌<◌, ◌≤◌, [], ◌++◌, length, take, min, IfOk, OnOk, OnErr, IsErr, IsTrue};
ghost use Rattle.ts_outside.specs.Counts.{Rose};
ghost use Rattle.ts_outside.specs.Memory.{room, sink_fails, sink_after};

use crate::counts::{is_failing, raised};
use crate::{Sink, SinkFailure};
use std::alloc::{AllocError, Global};
use std::marker::Model;

/// A sink that keeps what it takes in memory.
///
/// It takes each piece as far as there is room. Its calls of `write` are numbered from 0, and those fail
/// whose number it was given, and those at a full sink. The counters of calls and of faults stay at their
/// last value.
#[derive(Drop)]
pub struct MemorySink {
    bytes: Vec<u8>,
    capacity: usize,
    failing: Vec<u32>,
    calls: u64,
    faults: u64,
}

impl Model for MemorySink {
    ghost use Rattle.std.specs.Prelude.{◌≤◌, vec_len, vec_capacity};
    ghost use Rattle.ts_outside.specs.Memory.{HeldSink};

    ghost Value = { HeldSink };

    ghost view = { λ s. record { bytes = s.bytes.items; capacity = s.capacity; failing = s.failing.items; calls = s.calls; faults = s.faults } };

    ghost invariant = { λ s. (vec_len s.bytes ≤ s.capacity) × (s.capacity ≤ vec_capacity s.bytes) };
}

impl MemorySink {
    /// An empty sink with room for `capacity` bytes, whose calls of these numbers fail. The room is taken
    /// here, so that `write` takes no memory.
    pub fn new(alloc: Global, capacity: u32, fail: Vec<u32>) -> Result<MemorySink, AllocError>
        ensures { IfOk result (λ sink. sink ≡ record { bytes = []; capacity = capacity; failing = fail.items; calls = 0; faults = 0 }) }
    {
        let capacity = capacity as usize;
        let bytes = Vec::with_capacity(alloc, capacity)?;
        Ok(MemorySink {
            bytes,
            capacity,
            failing: fail,
            calls: 0,
            faults: 0,
        })
    }

    /// The bytes that the sink has taken.
    pub fn taken(&self) -> &[u8]
        ensures { result.now ≡ self.now.bytes }
    {
        self.bytes.as_slice()
    }
}

impl Sink for MemorySink {
    ghost use Rattle.std.specs.Prelude.{Some, None};

    ghost taken = { λ sink. Some sink.bytes };

    ghost handed = { λ _. None };

    ghost faults = { λ sink. sink.faults };

    fn write(&mut self, piece: &[u8]) -> Result<usize, SinkFailure>
        requires { 0 < length piece.now }
        ensures some { IfOk result (λ count. (0 < count) × (count ≤ length piece.now)) }
        ensures takes { IfOk result (λ count. self.new.bytes ≡ self.old.bytes ++ take count piece.now) }
        ensures takes_nothing { OnErr result (self.new.bytes ≡ self.old.bytes) }
        ensures failed { OnErr result (Rose self.old.faults self.new.faults) }
        ensures no_fault { OnOk result (self.new.faults ≡ self.old.faults) }
        ensures never_falls { self.old.faults ≤ self.new.faults }

        // A call fails exactly where its number is one of those that are to fail or the sink is full, and else
        // takes all that there is room for.
        ensures fails { IsErr result ↔ IsTrue (sink_fails self.old) }
        ensures count { IfOk result (λ count. count ≡ min (length piece.now) (room self.old)) }
        ensures after { self.new ≡ sink_after self.old piece.now }
    {
        let fails = is_failing(self.failing.as_slice(), self.calls);
        self.calls = raised(self.calls, 1);
        let count = piece.len().min(self.capacity - self.bytes.len());
        if fails || count == 0 || self.bytes.extend_from_slice(&piece[..count]).is_err() {
            self.faults = raised(self.faults, 1);
            return Err(SinkFailure);
        }
        Ok(count)
    }
}
