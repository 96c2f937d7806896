//! The class files of a case.

ghost use Rattle.std.specs.Prelude.{All, IfOk};
ghost use Rattle.program_linking.specs.LinkAnswers.{IsSoundFile};

use crate::case_failure::{CaseFailure, CaseFault};
use classfile_reader::read_class;
use failure::Failure;
use jvm_model::{Fault, Name, NamedClass, Refusal};
use std::alloc::Global;
use ts_outside::Tree;

/// All class files, in the order of their names; or the first one that is refused.
pub fn read_files<T: Tree>(alloc: Global, tree: &mut T) -> Result<Vec<NamedClass>, CaseFailure>
    ensures { IfOk result (λ files. All IsSoundFile files.items) }
{
    let mut files = Vec::new(alloc);
    let names = tree.list(alloc).map_err(Failure::widen)?;
    for name in names {
        files.push(read_file(alloc, tree, name)?)?;
    }
    Ok(files)
}

/// The class file of a name.
pub fn read_file<T: Tree>(
    alloc: Global,
    tree: &mut T,
    name: String,
) -> Result<NamedClass, CaseFailure>
    ensures { IfOk result IsSoundFile }
{
    let bytes = tree
        .read(alloc, name.as_str(), u32::MAX)
        .map_err(Failure::widen)?;
    match read_class(alloc, &bytes) {
        Ok(class) => Ok(NamedClass {
            file: Name::from_string(name),
            class,
        }),
        Err(Failure::Cause(Fault { offset, reason })) => Err(Failure::Cause(CaseFault::Refused(
            Refusal {
                file: Name::from_string(name),
                offset,
                reason,
            },
        ))),
        Err(Failure::OutOfMemory) => Err(Failure::OutOfMemory),
    }
}
