//! What attributes break (JVMS 4.7), and the code of methods (4.7.3).

ghost use Rattle.std.specs.Prelude.{◌≡◌, ◌<◌, ◌+◌, ◌^◌, length, flat_map, List, [], ◌∷◌};
ghost use Rattle.std.specs.List.{list_any};
ghost use Rattle.jvm_model.specs.declared.class_file.Attribute.{Attribute};
ghost use Rattle.jvm_model.specs.declared.pool.EntryKind.TheVariants as kinds;
ghost use Rattle.jvm_model.specs.Soundness.{is_code, wants_code, leads, code_there, code_allowed, each_place, attribute_places, code_places};
ghost use Rattle.jvm_model.specs.Spelling as spelling;
ghost use Rattle.classfile_reader.specs.FirstPlace.{IsFirstUse, IsFirstBreach};

use crate::soundness::uses::{at_offset, index_reason};
use jvm_model::layout::{attribute_length, is_code};
use jvm_model::{AccessFlag, Attribute, EntryKind, Member, PoolEntry, Reason};

/// The first fault of the attributes of a class or of a field, which begin at an offset.
pub(crate) fn attributes_fault(
    pool: &[PoolEntry],
    start: u32,
    attributes: &[Attribute],
) -> Option<(u32, Reason)>
    requires { start + length (flat_map spelling.attribute attributes.now) < 2 ^ 32 }
    ensures { IsFirstBreach pool.now (each_place attribute_places (λ a. length (spelling.attribute a)) start [] attributes.now) result }
{
    let mut offset = start;
    for attribute in attributes {
        let reason = index_reason(pool, &[EntryKind::Text], attribute.name);
        if let Some(fault) = at_offset(offset, reason) {
            return Some(fault);
        }
        offset += attribute_length(attribute);
    }
    None
}

/// Whether a method is to have code (JVMS 4.7.3).
fn wants_code(method: &Member) -> bool
    ensures { result ≡ wants_code method.now }
{
    !(AccessFlag::Native.is_set_in(method.flags) || AccessFlag::Abstract.is_set_in(method.flags))
}

/// Whether one of the attributes is code.
fn has_code(pool: &[PoolEntry], attributes: &[Attribute]) -> bool
    ensures { result ≡ list_any (is_code pool.now) attributes.now }
{
    attributes.iter().any(|attribute| is_code(pool, attribute))
}

/// What a method breaks whose code is missing.
pub(crate) fn code_reason(pool: &[PoolEntry], method: &Member) -> Option<Reason>
    ensures { IsFirstUse pool.now (code_there method.now ∷ []) result }
{
    if wants_code(method) && !has_code(pool, method.attributes.as_slice()) {
        return Some(Reason::CodeMissing);
    }
    None
}

/// What an attribute of a method breaks, after others of which one is code or none.
fn attribute_reason(
    pool: &[PoolEntry],
    method: &Member,
    has_code: bool,
    attribute: &Attribute,
) -> Option<Reason>
    ensures { (earlier : List Attribute) → has_code ≡ list_any (is_code pool.now) earlier
        → IsFirstUse pool.now (leads (kinds.Text ∷ []) attribute.now.name ∷ code_allowed method.now earlier attribute.now ∷ []) result }
{
    if let Some(reason) = index_reason(pool, &[EntryKind::Text], attribute.name) {
        return Some(reason);
    }
    if is_code(pool, attribute) && (has_code || !wants_code(method)) {
        return Some(Reason::CodeUnexpected);
    }
    None
}

/// The first fault of the attributes of a method, which begin at an offset.
pub(crate) fn code_fault(pool: &[PoolEntry], start: u32, method: &Member) -> Option<(u32, Reason)>
    requires { start + length (flat_map spelling.attribute method.now.attributes) < 2 ^ 32 }
    ensures { IsFirstBreach pool.now (each_place (code_places method.now) (λ a. length (spelling.attribute a)) start [] method.now.attributes) result }
{
    let mut offset = start;
    let mut has_code = false;
    for attribute in method.attributes.as_slice() {
        let reason = attribute_reason(pool, method, has_code, attribute);
        if let Some(fault) = at_offset(offset, reason) {
            return Some(fault);
        }
        has_code |= is_code(pool, attribute);
        offset += attribute_length(attribute);
    }
    None
}
