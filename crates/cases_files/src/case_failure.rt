//! Why a case has no answers.

use anyhow::Result;
use failure::Failure;
use jvm_model::Refusal;
use thiserror::Error;
use ts_outside::TreeFault;

/// Why the sources of a case give nothing.
#[derive(Debug, Drop, Error)]
pub enum CaseFault {
    /// A file is refused.
    #[error("refused {} {} {}", .0.file.as_str(), .0.offset, .0.reason)]
    Refused(Refusal),
    /// A file that is asked for is not there, or cannot be read.
    #[error("a file is not there, or cannot be read")]
    Unread,
    /// The classes have too many members to number.
    #[error("the classes have too many members to number")]
    TooMany,
}

/// Why a case has no answers.
pub type CaseFailure = Failure<CaseFault>;

impl From<TreeFault> for CaseFault {
    fn from(fault: TreeFault) -> CaseFault {
        match fault {
            TreeFault::Missing | TreeFault::Failed => CaseFault::Unread,
        }
    }
}

/// Whether a file is refused.
pub fn is_refusal(failure: &CaseFailure) -> bool {
    matches!(failure, Failure::Cause(CaseFault::Refused(_)))
}

/// Prints the refusal for which nothing is linked. Another failure is handed on.
pub fn tell_failure<R: Print>(rt: &R, failure: CaseFailure) -> Result<()> {
    if is_refusal(&failure) {
        println!(rt; "{failure}")?;
        return Ok(());
    }
    Err(failure.into())
}
