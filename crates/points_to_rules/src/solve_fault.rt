//! Why there is no solution.

ghost use Rattle.std.specs.Prelude.{◌≡◌};
ghost use Rattle.points_to_rules.specs.declared.solve_fault.SolveFault.TheVariants as faults;

use failure::Failure;
use jvm_model::Refusal;
use program_index::index_failure::TooMany;
use thiserror::Error;

/// What ends the analysis without a solution.
#[derive(Debug, Drop, Error)]
pub enum SolveFault {
    /// The least sets have at least so many pairs of a place and a site.
    #[error("the points-to sets have {0} pairs or more")]
    PairLimit(u64),
    /// The first refusal of a method that may run, or of a call in one.
    #[error("refused {} {} {}", .0.file.as_str(), .0.offset, .0.reason)]
    Refused(Refusal),
    /// 32 bits do not number what was found, or do not hold the offset of a refusal.
    #[error("there is too much to number")]
    TooMany,
}

/// Why there is no solution: a cause, or out of memory.
pub type SolveFailure = Failure<SolveFault>;

impl From<TooMany> for SolveFault {
    ghost from_gives = { λ _ fault. fault ≡ faults.TooMany };

    fn from(_cause: TooMany) -> SolveFault {
        SolveFault::TooMany
    }
}
