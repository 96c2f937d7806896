//! A sink that keeps the end of what it hands on.

ghost use Rattle.std.specs.Prelude.{◌≡◌, ◌⊎◌, ℕ, ◌<◌, ◌≤◌, ◌-◌, ◌++◌, [], List, length, take, drop, Option, option_map, IfOk, OnOk, OnErr};
ghost use Rattle.ts_outside.specs.Counts.{Rose};
ghost use Rattle.ts_outside.specs.Handed.{Handed, and_then};

use std::alloc::Global;
use ts_outside::{Sink, SinkFailure};

/// More bytes than the word of a reason has, with the space before it and the newline.
const KEPT: usize = 64;

/// A sink that hands each piece on to another one, and keeps the last bytes of the last piece that was taken.
#[derive(Drop)]
pub(crate) struct KeptLine<S: Sink + Drop> {
    inner: S,
    end: Vec<u8>,
}

impl<S: Sink + Drop> KeptLine<S> {
    /// A sink that hands each piece on to this one.
    pub(crate) fn new(alloc: Global, inner: S) -> KeptLine<S>
        ensures inner { result.inner ≡ inner }
        ensures end { result.end.items ≡ [] }
    {
        KeptLine {
            inner,
            end: Vec::new(alloc),
        }
    }

    /// The last word of the last piece that was taken.
    pub(crate) fn last_word(&self) -> &[u8] {
        let end = self.end.as_slice();
        let line = end.strip_suffix(b"\n").unwrap_or(end);
        match line.iter().rposition(|byte| *byte == b' ') {
            Some(place) => &line[place + 1..],
            None => line,
        }
    }

    /// Keeps the end of what was taken. Where there is no memory for it, nothing is kept.
    fn keep(&mut self, taken: &[u8])
        ensures inner { self.new.inner ≡ self.old.inner }
        ensures end { (self.new.end.items ≡ []) ⊎ (self.new.end.items ≡ drop (length taken.now - 64) taken.now) }
    {
        let (_front, end) = taken.split_at(taken.len().saturating_sub(KEPT));
        self.end.clear();
        if self.end.extend_from_slice(end).is_err() {
            self.end.clear();
        }
    }
}

impl<S: Sink + Drop> Sink for KeptLine<S> {
    ghost taken = { λ sink. S.taken sink.inner };

    ghost handed = { λ sink. S.handed sink.inner };

    ghost faults = { λ sink. S.faults sink.inner };

    fn write(&mut self, piece: &[u8]) -> Result<usize, SinkFailure>
        requires { 0 < length piece.now }
        ensures some { IfOk result (λ count. (0 < count) × (count ≤ length piece.now)) }
        ensures takes { IfOk result (λ count. S.taken self.new.inner ≡ option_map (λ bytes. bytes ++ take count piece.now) (S.taken self.old.inner)) }
        ensures takes_nothing { OnErr result (S.taken self.new.inner ≡ S.taken self.old.inner) }
        ensures hands { IfOk result (λ count. S.handed self.new.inner ≡ option_map (and_then piece.now count) (S.handed self.old.inner)) }
        ensures hands_in_vain { OnErr result (S.handed self.new.inner ≡ option_map (and_then piece.now 0) (S.handed self.old.inner)) }
        ensures failed { OnErr result (Rose (S.faults self.old.inner) (S.faults self.new.inner)) }
        ensures no_fault { OnOk result (S.faults self.new.inner ≡ S.faults self.old.inner) }
        ensures never_falls { S.faults self.old.inner ≤ S.faults self.new.inner }
    {
        let count = self.inner.write(piece)?;
        let (taken, _rest) = piece.split_at(count);
        self.keep(taken);
        Ok(count)
    }
}
