//! Why the class files of a folder are not read.

use failure::Failure;
use jvm_model::{Name, Refusal};
use thiserror::Error;

/// What bars the class files of a folder from being read.
#[derive(Debug, Drop, Error)]
pub enum FolderFault {
    /// A class file is refused, or there are too many.
    #[error("refused {} {} {}", .0.file.as_str(), .0.offset, .0.reason)]
    Refused(Refusal),
    /// A file that was listed is not there.
    #[error("there is no file {}", .0.as_str())]
    Missing(Name),
    /// The folder or a file cannot be read, and the tree counted a fault.
    #[error("the folder or a file cannot be read")]
    Unreadable,
}

/// Why the class files of a folder are not read: a fault, or out of memory.
pub type FolderFailure = Failure<FolderFault>;
