//! Allocation sites of an instruction, and the classes that it names.

ghost use Rattle.std.specs.Prelude.{◌≡◌, ◌<◌, ◌^◌, IfOk, Some};
ghost use Rattle.jvm_model.specs.Lookups.{class_name_at};
ghost use Rattle.machine_bytecode.specs.Machine.{NamesClass};
ghost use Rattle.lowering_operations.specs.ByAction.{site_at};

use crate::placement::Placement;
use jvm_model::lookup::class_name_at;
use jvm_model::site::{Site, SiteKind};
use jvm_model::{Bytes, ClassFile, Sequence};
use std::alloc::{AllocError, Global};

/// What the instruction allocates of a class.
pub(crate) fn new_site(alloc: Global, at: Placement<'_>, class: &[u8]) -> Result<Site, AllocError>
    ensures { IfOk result (λ site. site ≡ site_at at.entry class.now) }
{
    Ok(Site {
        kind: SiteKind::New,
        method: Some(at.method),
        offset: at.offset,
        class: copy_of(alloc, class)?,
    })
}

/// The name of the class, the interface or the array at an index of the constant pool (JVMS 4.4.1).
pub(crate) fn class_at(class: &ClassFile, index: u32) -> &[u8]
    requires small { index < 2 ^ 16 }
    requires there { NamesClass class.now.pool index }
    ensures { class_name_at class.now.pool index ≡ Some result.now }
{
    class_name_at(class.pool.as_slice(), index as u16).unwrap()
}

/// A copy of the bytes.
pub(crate) fn copy_of(alloc: Global, bytes: &[u8]) -> Result<Bytes, AllocError>
    ensures { IfOk result (λ copy. copy ≡ bytes.now) }
{
    Ok(Sequence::from_vec(Vec::from_slice(alloc, bytes)?))
}
