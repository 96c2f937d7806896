//! Why a call over a real folder fails.

use failure::Failure;
use std::io;
use thiserror::Error;

/// Why a real folder was not listed, or a file in it not read.
#[derive(Clone, Copy, Debug, PartialEq, Eq, Error)]
pub enum Trouble {
    /// Looking at an entry, opening it or reading it failed, or a name is not UTF-8.
    #[error("a file or a folder cannot be looked at: look at permissions, and for names that are not UTF-8")]
    Unreadable,
    /// Folders stand in one another on more than 64 levels.
    #[error("folders stand in one another on more than 64 levels: look for a link that leads back to a folder above it")]
    TooDeep,
    /// There are more than 1,048,576 entries.
    #[error("there are more than 1,048,576 files and folders")]
    TooMany,
    /// What is to be read is no regular file.
    #[error("what has the name of a file that is read is none: look for folders, pipes and devices of such a name")]
    NoFile,
}

/// Why a call has nothing to give.
pub(crate) type TroubleFailure = Failure<Trouble>;

/// What a call ends with that an error ended: out of memory, or trouble.
pub(crate) fn end_of(error: io::Error) -> TroubleFailure {
    if error.kind() == io::ErrorKind::OutOfMemory {
        Failure::OutOfMemory
    } else {
        Failure::Cause(Trouble::Unreadable)
    }
}
