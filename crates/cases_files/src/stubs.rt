//! The stubs of a case: those that are there from the start, and those of its stub file.

ghost use Rattle.std.specs.Prelude.{All, IfOk};
ghost use Rattle.jvm_model.specs.StubRules.{IsSoundStub};

use crate::case_failure::{CaseFailure, CaseFault};
use failure::Failure;
use jvm_model::{Name, Reason, Refusal, StubClass};
use std::alloc::{AllocError, Global};
use stub_file::{StubFault, base_stubs, base_stubs_are_closed, read_stubs};
use ts_outside::{Tree, TreeFault};

/// The name of the stub file of a case.
pub const STUB_FILE: &str = "stubs.toml";

/// The stubs of the stub file, if there is one, and then those that are there from the start: linking takes the latter first.
pub fn read_all_stubs<T: Tree>(alloc: Global, tree: &mut T) -> Result<Vec<StubClass>, CaseFailure>
    ensures { IfOk result (λ stubs. All IsSoundStub stubs.items) }
{
    let mut stubs = stubs_of_case(alloc, tree)?;
    stubs.append(&mut base(alloc)?)?;
    Ok(stubs)
}

/// The stubs of the stub file; none if there is no such file.
fn stubs_of_case<T: Tree>(alloc: Global, tree: &mut T) -> Result<Vec<StubClass>, CaseFailure>
    ensures { IfOk result (λ stubs. All IsSoundStub stubs.items) }
{
    match tree.read(alloc, STUB_FILE, u32::MAX) {
        Ok(bytes) => stubs_in(alloc, &bytes),
        Err(Failure::Cause(TreeFault::Missing)) => Ok(Vec::new(alloc)),
        Err(Failure::Cause(TreeFault::Failed)) => Err(Failure::Cause(CaseFault::Unread)),
        Err(Failure::OutOfMemory) => Err(Failure::OutOfMemory),
    }
}

/// The stubs that are there from the start.
fn base(alloc: Global) -> Result<Vec<StubClass>, AllocError>
    ensures { IfOk result (λ stubs. All IsSoundStub stubs.items) }
{
    base_stubs_are_closed();
    let stubs = base_stubs(alloc)?;
    Ok(stubs)
}

/// The stubs of the stub file.
fn stubs_in(alloc: Global, bytes: &[u8]) -> Result<Vec<StubClass>, CaseFailure>
    ensures { IfOk result (λ stubs. All IsSoundStub stubs.items) }
{
    match read_stubs(alloc, STUB_FILE, bytes) {
        Ok(stubs) => Ok(stubs),
        Err(Failure::Cause(StubFault::BadToml)) => Err(refused(alloc, Reason::BadToml)?),
        Err(Failure::Cause(StubFault::BadStub(_))) => Err(refused(alloc, Reason::BadStub)?),
        Err(Failure::OutOfMemory) => Err(Failure::OutOfMemory),
    }
}

/// That the stub file is refused.
fn refused(alloc: Global, reason: Reason) -> Result<CaseFailure, AllocError> {
    Ok(Failure::Cause(CaseFault::Refused(Refusal {
        file: Name::from_string(String::from_str(alloc, STUB_FILE)?),
        offset: 0,
        reason,
    })))
}
