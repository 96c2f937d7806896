//! A sink of which no call fails, and that keeps only how many bytes it has taken.
ghost use Rattle.std.specs.Prelude.{◌≡◌, ◌<◌, ◌≤◌, length, Ok, IfOk};
ghost use Rattle.ts_outside.specs.Counts as counts;

use crate::counts::raised;
use crate::{Sink, SinkFailure};
use std::marker::Model;

/// A sink of which no call fails. It takes each piece whole, keeps only the number of bytes, which stays at
/// its last value, and tells nothing of content. Its count of faults is 0 always.
#[derive(Drop)]
pub struct SteadySink {
    bytes: u64,
}

impl Model for SteadySink {
    ghost use Rattle.std.specs.Prelude.{ℕ};

    ghost Value = { ℕ };

    ghost view = { λ s. s.bytes };
}

impl SteadySink {
    /// A sink that has taken nothing.
    pub fn new() -> SteadySink
        ensures { result ≡ 0 }
    {
        SteadySink { bytes: 0 }
    }

    /// How many bytes the sink has taken, or the last value of the counter.
    pub fn count(&self) -> u64
        ensures { result ≡ self.now }
    {
        self.bytes
    }
}

impl Sink for SteadySink {
    ghost use Rattle.std.specs.Prelude.{None};

    ghost taken = { λ _. None };

    ghost handed = { λ _. None };

    ghost faults = { λ _. 0 };

    fn write(&mut self, piece: &[u8]) -> Result<usize, SinkFailure>
        requires { 0 < length piece.now }
        ensures some { IfOk result (λ count. (0 < count) × (count ≤ length piece.now)) }
        ensures whole { result ≡ Ok (length piece.now) }
        ensures after { self.new ≡ counts.raised self.old (length piece.now) }
    {
        self.bytes = raised(self.bytes, piece.len() as u64);
        Ok(piece.len())
    }
}
