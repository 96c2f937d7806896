//! Why linking gives no program.

ghost use Rattle.std.specs.Prelude.{◌≡◌};
ghost use Rattle.program_model.specs.LinkFailures.{IsLinkRefusal};
ghost use Rattle.program_model.specs.declared.link_failure.LinkFault.TheVariants as faults;

use failure::Failure;
use jvm_model::{Name, Reason, Refusal};
use program_index::index_failure::TooMany;
use std::alloc::Global;
use thiserror::Error;

/// What bars a program from being linked.
#[derive(Debug, Drop, Error)]
pub enum LinkFault {
    /// A demand of linking is not met (JVMS 5.3).
    #[error("{} is refused at byte {}: {}", .0.file.as_str(), .0.offset, .0.reason)]
    Refused(Refusal),
    /// There are 2^32 - 1 classes, methods, fields or texts, or more.
    #[error("there are too many classes, methods, fields or texts to number")]
    TooMany,
}

/// Why a program is not linked.
pub type LinkFailure = Failure<LinkFault>;

impl From<TooMany> for LinkFault {
    ghost from_gives = { λ _ fault. fault ≡ faults.TooMany };

    fn from(_cause: TooMany) -> LinkFault {
        LinkFault::TooMany
    }
}

/// The refusal of a file at an offset. The file's name is copied, for which memory may run out.
pub fn refused(alloc: Global, file: &Name, offset: u32, reason: Reason) -> LinkFailure
    ensures { IsLinkRefusal file.now offset reason result }
{
    match String::from_str(alloc, file.as_str()) {
        Ok(copy) => Failure::Cause(LinkFault::Refused(Refusal {
            file: Name::from_string(copy),
            offset,
            reason,
        })),
        Err(_) => Failure::OutOfMemory,
    }
}
