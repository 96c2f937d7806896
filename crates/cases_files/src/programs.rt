//! The program of a case.

ghost use Rattle.std.specs.Prelude.{All};
ghost use Rattle.jvm_model.specs.StubRules.{IsSoundStub};
ghost use Rattle.program_linking.specs.LinkAnswers.{IsSoundFile};

use crate::case_failure::{CaseFailure, CaseFault};
use crate::class_files::read_files;
use crate::members::{Members, members_of};
use crate::stubs::read_all_stubs;
use failure::Failure;
use jvm_model::{NamedClass, StubClass};
use program_linking::link::link;
use program_model::LinkFault;
use program_model::program::Program;
use std::alloc::Global;
use ts_outside::Tree;

/// The program of a case, and the members of its classes.
#[derive(Drop)]
pub struct Linked {
    pub program: Program,
    pub members: Members,
}

/// The program of the files of a case, and what they declare.
pub fn read_case<T: Tree>(alloc: Global, tree: &mut T) -> Result<Linked, CaseFailure> {
    let files = read_files(alloc, tree)?;
    let stubs = read_all_stubs(alloc, tree)?;
    link_all(alloc, files, stubs)
}

/// The program of the class files and the stubs of a case, and what they declare.
fn link_all(
    alloc: Global,
    files: Vec<NamedClass>,
    stubs: Vec<StubClass>,
) -> Result<Linked, CaseFailure>
    requires files { All IsSoundFile files.items }
    requires stubs { All IsSoundStub stubs.items }
{
    let members = members_of(alloc, &files, &stubs)?;
    let program = link_case(alloc, files, stubs)?;
    Ok(Linked { program, members })
}

/// The program of the class files and the stubs of a case.
pub fn link_case(
    alloc: Global,
    files: Vec<NamedClass>,
    stubs: Vec<StubClass>,
) -> Result<Program, CaseFailure>
    requires files { All IsSoundFile files.items }
    requires stubs { All IsSoundStub stubs.items }
{
    match link(alloc, files, stubs) {
        Ok(program) => Ok(program),
        Err(Failure::Cause(LinkFault::Refused(refusal))) => Err(Failure::Cause(CaseFault::Refused(
            refusal,
        ))),
        Err(Failure::Cause(LinkFault::TooMany)) => Err(Failure::Cause(CaseFault::TooMany)),
        Err(Failure::OutOfMemory) => Err(Failure::OutOfMemory),
    }
}
