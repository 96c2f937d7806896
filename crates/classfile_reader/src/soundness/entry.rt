//! What the entries of a constant pool break (JVMS 4.4).

ghost use Rattle.std.specs.Prelude.{◌≡◌, ◌<◌, ◌+◌, ◌^◌, length, flat_map, IfOk, List, [], ◌∷◌};
ghost use Rattle.jvm_model.specs.declared.pool.EntryKind.TheVariants as kinds;
ghost use Rattle.jvm_model.specs.Soundness.{leads, either_signature, each_place, entry_places, entry_uses, reference_uses, signature, text_bytes};
ghost use Rattle.jvm_model.specs.Spelling as spelling;
ghost use Rattle.classfile_reader.specs.FirstPlace.{IsFirstUse, IsFirstBreach};
ghost use Rattle.classfile_reader.specs.KnownTexts.{AreKnown};

use crate::soundness::known::KnownTexts;
use crate::soundness::uses::{
    at_offset, either_signature_holds, handle_targets, index_reason, is_text, signature_holds,
    text_reason,
};
use jvm_model::layout::entry_length;
use jvm_model::lookup::leads_to;
use jvm_model::{EntryKind, Grammar, PoolEntry, Reason};
use std::alloc::AllocError;

/// What the bytes of a text break.
fn bytes_reason(pool: &[PoolEntry], bytes: &[u8]) -> Option<Reason>
    ensures { IsFirstUse pool.now (text_bytes bytes.now ∷ []) result }
{
    if !is_text(bytes) {
        return Some(Reason::BadUtf8);
    }
    None
}

/// What a member that an entry names breaks (JVMS 4.4.2).
fn reference_reason(
    pool: &[PoolEntry],
    known: &mut KnownTexts,
    grammars: (Grammar, Grammar),
    class: u16,
    member: u16,
) -> Result<Option<Reason>, AllocError>
    requires { AreKnown pool.now known.old }
    ensures exact { IfOk result (IsFirstUse pool.now (reference_uses grammars.0 grammars.1 class member)) }
    ensures known { AreKnown pool.now known.new }
{
    if !leads_to(pool, &[EntryKind::Class], class) {
        return Ok(Some(Reason::BadIndex));
    }
    signature_reason(pool, known, grammars, member)
}

/// What a name and a descriptor in two grammars break.
fn signature_reason(
    pool: &[PoolEntry],
    known: &mut KnownTexts,
    grammars: (Grammar, Grammar),
    member: u16,
) -> Result<Option<Reason>, AllocError>
    requires { AreKnown pool.now known.old }
    ensures exact { IfOk result (IsFirstUse pool.now (leads (kinds.NameAndType ∷ []) member ∷ signature grammars.0 grammars.1 member ∷ [])) }
    ensures known { AreKnown pool.now known.new }
{
    if !leads_to(pool, &[EntryKind::NameAndType], member) {
        return Ok(Some(Reason::BadIndex));
    }
    if !signature_holds(pool, known, grammars.0, grammars.1, member)? {
        return Ok(Some(Reason::BadDescriptor));
    }
    Ok(None)
}

/// What a name and a descriptor of a field or a method break (JVMS 4.4.6).
fn name_and_type_reason(
    pool: &[PoolEntry],
    known: &mut KnownTexts,
    name: u16,
    descriptor: u16,
) -> Result<Option<Reason>, AllocError>
    requires { AreKnown pool.now known.old }
    ensures exact { IfOk result (IsFirstUse pool.now (leads (kinds.Text ∷ []) name ∷ leads (kinds.Text ∷ []) descriptor ∷ either_signature name descriptor ∷ [])) }
    ensures known { AreKnown pool.now known.new }
{
    if !leads_to(pool, &[EntryKind::Text], name) {
        return Ok(Some(Reason::BadIndex));
    }
    if !leads_to(pool, &[EntryKind::Text], descriptor) {
        return Ok(Some(Reason::BadIndex));
    }
    if !either_signature_holds(pool, known, name, descriptor)? {
        return Ok(Some(Reason::BadDescriptor));
    }
    Ok(None)
}

/// What an entry breaks, in a class file of a major version.
fn entry_reason(
    pool: &[PoolEntry],
    known: &mut KnownTexts,
    major: u16,
    entry: &PoolEntry,
) -> Result<Option<Reason>, AllocError>
    requires { AreKnown pool.now known.old }
    ensures exact { IfOk result (IsFirstUse pool.now (entry_uses major entry.now)) }
    ensures known { AreKnown pool.now known.new }
{
    let fields = (Grammar::FieldName, Grammar::FieldDescriptor);
    let methods = (Grammar::MethodName, Grammar::MethodDescriptor);
    match entry {
        PoolEntry::Utf8(bytes) => Ok(bytes_reason(pool, bytes.as_slice())),
        PoolEntry::Integer(_)
        | PoolEntry::Float(_)
        | PoolEntry::Long(_)
        | PoolEntry::Double(_)
        | PoolEntry::Taken => Ok(None),
        PoolEntry::Class(name) => text_reason(pool, known, Grammar::ClassOrArray, *name),
        PoolEntry::Str(text) => Ok(index_reason(pool, &[EntryKind::Text], *text)),
        PoolEntry::Fieldref { class, member } => {
            reference_reason(pool, known, fields, *class, *member)
        }
        PoolEntry::Methodref { class, member } | PoolEntry::InterfaceMethodref { class, member } =>
            { reference_reason(pool, known, methods, *class, *member) }
        PoolEntry::NameAndType { name, descriptor } => {
            name_and_type_reason(pool, known, *name, *descriptor)
        }
        PoolEntry::MethodHandle { kind, reference } => {
            Ok(index_reason(pool, handle_targets(major, *kind), *reference))
        }
        PoolEntry::MethodType(descriptor) => {
            text_reason(pool, known, Grammar::MethodDescriptor, *descriptor)
        }
        PoolEntry::InvokeDynamic { member, .. } => signature_reason(pool, known, methods, *member),
    }
}

/// The first fault of the entries, which begin at offset 10 of a class file of a major version.
pub(crate) fn pool_fault(
    pool: &[PoolEntry],
    known: &mut KnownTexts,
    major: u16,
) -> Result<Option<(u32, Reason)>, AllocError>
    requires known_before { AreKnown pool.now known.old }
    requires size { 10 + length (flat_map spelling.entry pool.now) < 2 ^ 32 }
    ensures exact { IfOk result (IsFirstBreach pool.now (each_place (entry_places major) (λ e. length (spelling.entry e)) 10 [] pool.now)) }
    ensures known { AreKnown pool.now known.new }
{
    let mut offset = 10;
    for entry in pool {
        let reason = entry_reason(pool, known, major, entry)?;
        if let Some(fault) = at_offset(offset, reason) {
            return Ok(Some(fault));
        }
        offset += entry_length(entry);
    }
    Ok(None)
}
