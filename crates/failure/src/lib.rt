//! Why a call gave no answer: a cause of its own, or out of memory. Each layer has a type for its causes, and an alias of `Failure` at it.
//! The layers above call `widen` and `map_cause`, and let `?` make `OutOfMemory` of the allocator's errors. All stands in this file; what a
//! failure that is handed on still says is `IsWidened`, in specs/Widening.antt.
#![tactic(auto)]

ghost use Rattle.std.specs.Prelude.{◌≡◌};
ghost use Rattle.failure.specs.Widening.{IsWidened};
ghost use Rattle.failure.specs.declared.Failure.TheVariants.{Cause, OutOfMemory};

use std::alloc::{AllocError, AllocFailed};
use std::fmt;
use thiserror::Error;

/// Why a call gave no answer: a cause of its own, or out of memory.
#[derive(Clone, Copy, Debug, PartialEq, Eq, Error)]
#[error_bound(Cause: fmt::Display)]
pub enum Failure<Cause> {
    /// A cause of the call's own.
    #[error("{0}")]
    Cause(Cause),
    /// An allocation failed.
    #[error("out of memory")]
    OutOfMemory,
}

impl<Cause> Failure<Cause> {
    /// The failure with another cause, which the function makes of this one.
    pub fn map_cause<Other, F: FnOnce(Cause) -> Other>(self, make: F) -> Failure<Other>
        requires { (cause : Cause) → self ≡ Failure.Cause cause → F.pre make cause }
        ensures { IsWidened (F.post make) self result }
    {
        match self {
            Failure::Cause(cause) => Failure::Cause(make(cause)),
            Failure::OutOfMemory => Failure::OutOfMemory,
        }
    }

    /// The failure of a layer above, whose cause is made of this one. `impl From<Failure<A>> for Failure<B>` would do the same
    /// at a `?`, but only this crate may write it, and it does not know the causes.
    pub fn widen<Above: From<Cause>>(self) -> Failure<Above>
        ensures { IsWidened Above.from_gives self result }
    {
        match self {
            Failure::Cause(cause) => Failure::Cause(Above::from(cause)),
            Failure::OutOfMemory => Failure::OutOfMemory,
        }
    }
}

impl<Cause> From<AllocError> for Failure<Cause> {
    ghost from_gives = { λ _ e. e ≡ OutOfMemory };

    fn from(_error: AllocError) -> Failure<Cause> {
        Failure::OutOfMemory
    }
}

impl<T: Drop, Cause> From<AllocFailed<T>> for Failure<Cause> {
    ghost from_gives = { λ _ e. e ≡ OutOfMemory };

    fn from(_error: AllocFailed<T>) -> Failure<Cause> {
        Failure::OutOfMemory
    }
}
