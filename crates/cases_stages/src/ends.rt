//! Why a program has no solution of the points-to analysis.

use anyhow::{Result, bail};
use failure::Failure;
use jvm_model::{Refusal, reason_word};
use points_to_rules::{SolveFailure, SolveFault};
use std::alloc::AllocError;

/// Prints why there is no solution. Want of memory is handed on.
pub fn tell_end<R: Print>(rt: &R, failure: SolveFailure) -> Result<()> {
    match failure {
        Failure::Cause(SolveFault::PairLimit(limit)) => {
            println!(rt; "end limit {limit}")?;
            Ok(())
        }
        Failure::Cause(SolveFault::Refused(refusal)) => tell_refusal(rt, &refusal),
        Failure::Cause(SolveFault::TooMany) => bail!("there is too much to number"),
        Failure::OutOfMemory => Err(AllocError.into()),
    }
}

/// Prints a refusal.
fn tell_refusal<R: Print>(rt: &R, refusal: &Refusal) -> Result<()> {
    let file = refusal.file.as_str();
    let offset = refusal.offset;
    let reason = reason_word(refusal.reason);
    println!(rt; "end refused {file} {offset} {reason}")?;
    Ok(())
}
