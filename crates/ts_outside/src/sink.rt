//! A place where output goes, as a trait.

ghost use Rattle.std.specs.Prelude.{◌≡◌, ℕ, ◌<◌, ◌≤◌, ◌++◌, List, length, take, Option, option_map, IfOk, OnOk, OnErr};
ghost use Rattle.ts_outside.specs.Counts.{Rose};
ghost use Rattle.ts_outside.specs.Handed.{Handed, and_then};

use thiserror::Error;

/// A write took nothing, and the sink counted a fault.
#[derive(Clone, Copy, Debug, PartialEq, Eq, Error)]
#[error("the sink takes nothing")]
pub struct SinkFailure;

/// A place where output goes.
///
/// It has three meanings. `taken` is the list of the bytes that it has taken, or `None` where it does not
/// tell. `handed` is the list of the calls of `write`, each with its piece and with how many bytes of it were
/// taken, or `None` where it does not tell. `faults` is a count of faults, which never falls, and rises in no call
/// that takes something.
pub trait Sink {
    ghost taken: { Self → Option (List ℕ) };

    ghost handed: { Self → Option (List Handed) };

    ghost faults: { Self → ℕ };

    /// Takes some of the first bytes of the piece, and answers how many.
    fn write(&mut self, piece: &[u8]) -> Result<usize, SinkFailure>
        requires { 0 < length piece.now }
        ensures some { IfOk result (λ count. (0 < count) × (count ≤ length piece.now)) }
        ensures takes { IfOk result (λ count. taken self.new ≡ option_map (λ bytes. bytes ++ take count piece.now) (taken self.old)) }
        ensures takes_nothing { OnErr result (taken self.new ≡ taken self.old) }
        ensures hands { IfOk result (λ count. handed self.new ≡ option_map (and_then piece.now count) (handed self.old)) }
        ensures hands_in_vain { OnErr result (handed self.new ≡ option_map (and_then piece.now 0) (handed self.old)) }
        ensures failed { OnErr result (Rose (faults self.old) (faults self.new)) }
        ensures no_fault { OnOk result (faults self.new ≡ faults self.old) }
        ensures never_falls { faults self.old ≤ faults self.new };
}
