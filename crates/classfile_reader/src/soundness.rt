//! What makes a class file sound beyond its spelling: the places where it uses an index, a text or a name are walked in
//! the order of the file, and the first one that does not hold is told (JVMS 4.2 to 4.7).

ghost use Rattle.std.specs.Prelude.{◌<◌, ◌^◌, length, IfOk};
ghost use Rattle.jvm_model.specs.Soundness.{places_of, body_places};
ghost use Rattle.jvm_model.specs.Spelling.{spell};
ghost use Rattle.classfile_reader.specs.FirstPlace.{IsFirstBreach};
ghost use Rattle.classfile_reader.specs.KnownTexts.{AreKnown};

mod attribute;
mod entry;
mod header;
mod known;
mod member;
mod repeats;
mod text_numbers;
mod uses;

use crate::soundness::attribute::attributes_fault;
use crate::soundness::entry::pool_fault;
use crate::soundness::header::header_fault;
use crate::soundness::known::KnownTexts;
use crate::soundness::member::{MemberKind, members_fault};
use jvm_model::layout::{attributes_offset, fields_offset, methods_offset};
use jvm_model::{ClassFile, Reason};
use std::alloc::{AllocError, Global};

/// The first fault of the fields, the methods and the attributes of a class file.
fn body_fault(
    alloc: Global,
    class: &ClassFile,
    known: &mut KnownTexts,
) -> Result<Option<(u32, Reason)>, AllocError>
    requires known_before { AreKnown class.now.pool known.old }
    requires size { length (spell class.now) < 2 ^ 32 }
    ensures { IfOk result (IsFirstBreach class.now.pool (body_places class.now)) }
{
    let pool = class.pool.as_slice();
    let fields = class.fields.as_slice();
    let start = fields_offset(class);
    if let Some(fault) = members_fault(alloc, pool, known, MemberKind::Field, start, fields)? {
        return Ok(Some(fault));
    }
    let methods = class.methods.as_slice();
    let start = methods_offset(class);
    if let Some(fault) = members_fault(alloc, pool, known, MemberKind::Method, start, methods)? {
        return Ok(Some(fault));
    }
    let attributes = class.attributes.as_slice();
    Ok(attributes_fault(pool, attributes_offset(class), attributes))
}

/// The offset and the reason of the first place of a class file of which the use does not hold; none if it is sound.
/// The time taken is linear in the size of the file, as long as hashes tell texts apart.
pub(crate) fn first_fault(
    alloc: Global,
    class: &ClassFile,
) -> Result<Option<(u32, Reason)>, AllocError>
    requires { length (spell class.now) < 2 ^ 32 }
    ensures { IfOk result (IsFirstBreach class.now.pool (places_of class.now)) }
{
    let pool = class.pool.as_slice();
    let mut known = KnownTexts::new(alloc, pool);
    if let Some(fault) = pool_fault(pool, &mut known, class.major)? {
        return Ok(Some(fault));
    }
    if let Some(fault) = header_fault(class) {
        return Ok(Some(fault));
    }
    body_fault(alloc, class, &mut known)
}
