//! Standard output as a sink.
ghost use Rattle.std.specs.Prelude.{◌≡◌, ◌<◌, ◌≤◌, length, IfOk, OnOk, OnErr};
ghost use Rattle.ts_outside.specs.Counts.{Rose};
ghost use Rattle.ts_outside.specs.Counts as counts;

use crate::counts::raised;
use crate::{Sink, SinkFailure};
use std::marker::Model;

/// Standard output as a sink. It tells nothing of content, and counts each error and each write that took
/// nothing as a fault.
#[derive(Drop)]
pub struct RealSink<R: Print + Clone + Drop> {
    rt: R,
    faults: u64,
}

impl<R: Print + Clone + Drop> Model for RealSink<R> {
    ghost use Rattle.std.specs.Prelude.{ℕ};

    ghost Value = { ℕ };

    ghost view = { λ s. s.faults };
}

impl<R: Print + Clone + Drop> RealSink<R> {
    /// The standard output of this runtime.
    pub fn new(rt: R) -> RealSink<R>
        ensures { result ≡ 0 }
    {
        RealSink { rt, faults: 0 }
    }
}

impl<R: Print + Clone + Drop> Sink for RealSink<R> {
    ghost use Rattle.std.specs.Prelude.{None};

    ghost taken = { λ _. None };

    ghost handed = { λ _. None };

    ghost faults = { λ faults. faults };

    fn write(&mut self, piece: &[u8]) -> Result<usize, SinkFailure>
        requires { 0 < length piece.now }
        ensures some { IfOk result (λ count. (0 < count) × (count ≤ length piece.now)) }
        ensures failed { OnErr result (Rose self.old self.new) }
        ensures never_falls { self.old ≤ self.new }
        ensures no_fault { OnOk result (self.new ≡ self.old) }
        ensures err { OnErr result (self.new ≡ counts.raised self.old 1) }
    {
        match self.rt.write_some(piece) {
            Ok(count) if count > 0 => Ok(count),
            _ => {
                self.faults = raised(self.faults, 1);
                Err(SinkFailure)
            }
        }
    }
}
