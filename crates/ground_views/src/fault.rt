//! Why path edges are not all found.

use failure::Failure;

/// What ends the search for path edges.
#[derive(Clone, Copy, Debug, PartialEq, Eq)]
pub enum EdgesFault {
    /// There are as many path edges as the limit, or more.
    Limit,
    /// 32 bits do not count the slots of a method, or the units of the arguments of a call.
    TooMany,
}

/// Why path edges are not all found: a cause, or out of memory.
pub type EdgesFailure = Failure<EdgesFault>;
