//! Why words ask for nothing.

use failure::Failure;
use thiserror::Error;

/// An option with a number, in the order in which they are checked.
#[derive(Clone, Copy, Debug, PartialEq, Eq)]
pub enum NumberOption {
    Stages,
    Depth,
    FactLimit,
    PairLimit,
    Sample,
}

/// What is wrong with the words of a run.
#[derive(Clone, Copy, Debug, PartialEq, Eq, Error)]
pub enum UsageFault {
    /// They are not of the command's form, or the entry has no full stop.
    #[error("the words are not those of a run")]
    Words,
    /// Two options stand of which each is a mode of its own.
    #[error("two modes are asked for")]
    Modes,
    /// A number is not of its form or not in its range.
    #[error("a number is not of its form or not in its range")]
    Range(NumberOption),
}

/// Why words are not read: a fault, or out of memory.
pub type UsageFailure = Failure<UsageFault>;
