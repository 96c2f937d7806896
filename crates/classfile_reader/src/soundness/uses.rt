//! Uses of an index, a text or a name, and whether they hold.

ghost use Rattle.std.specs.Prelude.{codes, ◌≡◌, ◌↔◌, IfOk, IsTrue, Some, List, [], ◌∷◌};
ghost use Rattle.std.specs.List.{list_all, list_any};
ghost use Rattle.jvm_model.specs.declared.pool.PoolEntry.{PoolEntry};
ghost use Rattle.jvm_model.specs.Lookups.{class_name_at};
ghost use Rattle.jvm_model.specs.Soundness.{at_offset, leads, Use, is_text_byte, handle_targets, UseHolds, TextIsIn, no_array, superclass, signature, either_signature, text_uses, class_uses};
ghost use Rattle.classfile_reader.specs.FirstPlace.{IsFirstUse, IsFirstBreach};
ghost use Rattle.classfile_reader.specs.KnownTexts.{AreKnown};

use crate::soundness::known::KnownTexts;
use jvm_model::grammar::is_array;
use jvm_model::lookup::{class_name_at, entry_at, leads_to};
use jvm_model::{EntryKind, Grammar, PoolEntry, Reason};
use std::alloc::AllocError;

/// The newest major version, in which a handle may be for an interface's method (JVMS 4.4.8).
const HANDLES_OF_INTERFACES: u16 = 52;

/// Whether a byte may stand in a text (JVMS 4.4.7).
fn is_text_byte(byte: u8) -> bool
    ensures { result ≡ is_text_byte byte }
{
    0 < byte && byte < 0xF0
}

/// Whether each byte may stand in a text.
pub(crate) fn is_text(bytes: &[u8]) -> bool
    ensures { result ≡ list_all is_text_byte bytes.now }
{
    bytes.iter().all(|byte| is_text_byte(*byte))
}

/// What an index breaks that has to lead to an entry of one of these kinds.
pub(crate) fn index_reason(pool: &[PoolEntry], allowed: &[EntryKind], index: u16) -> Option<Reason>
    ensures { IsFirstUse pool.now (leads allowed.now index ∷ []) result }
{
    if !leads_to(pool, allowed, index) {
        return Some(Reason::BadIndex);
    }
    None
}

/// The offset at which uses stand, and what they break.
pub(crate) fn at_offset(offset: u32, reason: Option<Reason>) -> Option<(u32, Reason)>
    ensures { (pool : List PoolEntry) (uses : List Use) → IsFirstUse pool uses reason → IsFirstBreach pool (at_offset offset uses) result }
{
    match reason {
        Some(reason) => Some((offset, reason)),
        None => None,
    }
}

/// Whether a class at an index, if there is one, is no array.
fn is_no_array(pool: &[PoolEntry], index: u16) -> bool
    ensures { IsTrue result ↔ UseHolds pool.now (no_array index) }
{
    match class_name_at(pool, index) {
        Some(name) => !is_array(name),
        None => true,
    }
}

/// Whether an index leads to the class `java/lang/Object`.
fn is_object_at(pool: &[PoolEntry], index: u16) -> bool
    ensures { IsTrue result ↔ (class_name_at pool.now index ≡ Some (codes "java/lang/Object")) }
{
    match class_name_at(pool, index) {
        Some(name) => name == b"java/lang/Object".as_slice(),
        None => false,
    }
}

/// Whether a class has a superclass, or is the one that has none (JVMS 4.1).
fn has_superclass(pool: &[PoolEntry], this_class: u16, index: u16) -> bool
    ensures { IsTrue result ↔ UseHolds pool.now (superclass this_class index) }
{
    leads_to(pool, &[EntryKind::Class], index) || (index == 0 && is_object_at(pool, this_class))
}

/// What a class that is named beside the pool breaks.
pub(crate) fn class_reason(pool: &[PoolEntry], index: u16) -> Option<Reason>
    ensures { IsFirstUse pool.now (class_uses index) result }
{
    if !leads_to(pool, &[EntryKind::Class], index) {
        return Some(Reason::BadIndex);
    }
    if !is_no_array(pool, index) {
        return Some(Reason::BadDescriptor);
    }
    None
}

/// What the index of a superclass breaks.
pub(crate) fn superclass_reason(pool: &[PoolEntry], this_class: u16, index: u16) -> Option<Reason>
    ensures { IsFirstUse pool.now (superclass this_class index ∷ no_array index ∷ []) result }
{
    if !has_superclass(pool, this_class, index) {
        return Some(Reason::BadIndex);
    }
    if !is_no_array(pool, index) {
        return Some(Reason::BadDescriptor);
    }
    None
}

/// What a text in a grammar breaks.
pub(crate) fn text_reason(
    pool: &[PoolEntry],
    known: &mut KnownTexts,
    grammar: Grammar,
    index: u16,
) -> Result<Option<Reason>, AllocError>
    requires { AreKnown pool.now known.old }
    ensures exact { IfOk result (IsFirstUse pool.now (text_uses grammar index)) }
    ensures known { AreKnown pool.now known.new }
{
    if !leads_to(pool, &[EntryKind::Text], index) {
        return Ok(Some(Reason::BadIndex));
    }
    if !known.is_in(pool, grammar, index)? {
        return Ok(Some(Reason::BadDescriptor));
    }
    Ok(None)
}

/// What a method handle of a kind may be for (JVMS 4.4.8).
pub(crate) fn handle_targets(major: u16, kind: u8) -> &'static [EntryKind]
    ensures { result.now ≡ handle_targets major kind }
{
    match kind {
        1..=4 => &[EntryKind::Field],
        5 | 8 => &[EntryKind::Method],
        6 | 7 if major == HANDLES_OF_INTERFACES => {
            &[EntryKind::Method, EntryKind::InterfaceMethod]
        }
        6 | 7 => &[EntryKind::Method],
        9 => &[EntryKind::InterfaceMethod],
        _ => &[],
    }
}

/// Whether two texts, so far as they are there, are in two grammars. The second is a descriptor's: a descriptor of a
/// field is refused as a method's at its first byte, and the other way round, so that no long name is read for
/// nothing.
fn are_in(
    pool: &[PoolEntry],
    known: &mut KnownTexts,
    grammars: (Grammar, Grammar),
    indices: (u16, u16),
) -> Result<bool, AllocError>
    requires { AreKnown pool.now known.old }
    ensures exact { IfOk result (λ are. IsTrue are ↔ (TextIsIn pool.now grammars.0 indices.0 × TextIsIn pool.now grammars.1 indices.1)) }
    ensures known { AreKnown pool.now known.new }
{
    if !known.is_in(pool, grammars.1, indices.1)? {
        return Ok(false);
    }
    known.is_in(pool, grammars.0, indices.0)
}

/// Whether a name and a descriptor at an index are in two grammars.
pub(crate) fn signature_holds(
    pool: &[PoolEntry],
    known: &mut KnownTexts,
    names: Grammar,
    descriptors: Grammar,
    index: u16,
) -> Result<bool, AllocError>
    requires { AreKnown pool.now known.old }
    ensures exact { IfOk result (λ holds. IsTrue holds ↔ UseHolds pool.now (signature names descriptors index)) }
    ensures known { AreKnown pool.now known.new }
{
    match entry_at(pool, index) {
        Some(PoolEntry::NameAndType { name, descriptor }) => are_in(
            pool,
            known,
            (names, descriptors),
            (*name, *descriptor),
        ),
        _ => Ok(true),
    }
}

/// Whether a name and a descriptor at two indices are those of a method or of a field.
pub(crate) fn either_signature_holds(
    pool: &[PoolEntry],
    known: &mut KnownTexts,
    name: u16,
    descriptor: u16,
) -> Result<bool, AllocError>
    requires { AreKnown pool.now known.old }
    ensures exact { IfOk result (λ holds. IsTrue holds ↔ UseHolds pool.now (either_signature name descriptor)) }
    ensures known { AreKnown pool.now known.new }
{
    let methods = (Grammar::MethodName, Grammar::MethodDescriptor);
    if are_in(pool, known, methods, (name, descriptor))? {
        return Ok(true);
    }
    let fields = (Grammar::FieldName, Grammar::FieldDescriptor);
    are_in(pool, known, fields, (name, descriptor))
}
