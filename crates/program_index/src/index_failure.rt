//! Why an item is not indexed.

use failure::Failure;
use thiserror::Error;

/// There are 2^32 - 1 items already, as many as 32 bits can count.
#[derive(Clone, Copy, Debug, PartialEq, Eq, Error)]
#[error("too many items to number")]
pub struct TooMany;

/// Why an item is not indexed.
pub type IndexFailure = Failure<TooMany>;
