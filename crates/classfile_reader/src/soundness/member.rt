//! What fields and methods break (JVMS 4.5, 4.6).

ghost use Rattle.std.specs.Prelude.{◌≡◌, ◌<◌, ◌+◌, ◌^◌, ◌++◌, length, flat_map, IfOk, List, [], ◌∷◌};
ghost use Rattle.jvm_model.specs.declared.class_file.Member.{Member};
ghost use Rattle.jvm_model.specs.Soundness.{differs, text_uses, name_places, field_places, method_places, each_place};
ghost use Rattle.jvm_model.specs.Spelling as spelling;
ghost use Rattle.classfile_reader.specs.FirstPlace.{IsFirstUse, IsFirstBreach, member_places};
ghost use Rattle.classfile_reader.specs.KnownTexts.{AreKnown};
ghost use Rattle.classfile_reader.specs.Repeats.{IsRepeat};

use crate::soundness::attribute::{attributes_fault, code_fault, code_reason};
use crate::soundness::known::KnownTexts;
use crate::soundness::repeats::repeats;
use crate::soundness::uses::{at_offset, text_reason};
use jvm_model::layout::{INDEX, MEMBER_ATTRIBUTES, MEMBER_NAME, member_length};
use jvm_model::{Grammar, Member, PoolEntry, Reason};
use std::alloc::{AllocError, Global};

/// Fields or methods.
#[derive(Clone, Copy, Debug, PartialEq, Eq)]
pub(crate) enum MemberKind {
    Field,
    Method,
}

/// What the name of a member breaks, of which it is known whether an earlier one has it and the descriptor too.
fn name_reason(
    pool: &[PoolEntry],
    known: &mut KnownTexts,
    grammar: Grammar,
    member: &Member,
    is_repeat: bool,
) -> Result<Option<Reason>, AllocError>
    requires { AreKnown pool.now known.old }
    ensures exact { IfOk result (λ r. (earlier : List Member) → IsRepeat pool.now earlier member.now is_repeat
        → IsFirstUse pool.now (text_uses grammar member.now.name ++ differs earlier member.now ∷ []) r) }
    ensures known { AreKnown pool.now known.new }
{
    if let Some(reason) = text_reason(pool, known, grammar, member.name)? {
        return Ok(Some(reason));
    }
    if is_repeat {
        return Ok(Some(Reason::BadDescriptor));
    }
    Ok(None)
}

/// The first fault of the name and the descriptor of a member, which stand at an offset.
fn names_fault(
    pool: &[PoolEntry],
    known: &mut KnownTexts,
    grammars: (Grammar, Grammar),
    offset: u32,
    member: &Member,
    is_repeat: bool,
) -> Result<Option<(u32, Reason)>, AllocError>
    requires known_before { AreKnown pool.now known.old }
    requires size { offset + 2 < 2 ^ 32 }
    ensures exact { IfOk result (λ r. (earlier : List Member) → IsRepeat pool.now earlier member.now is_repeat
        → IsFirstBreach pool.now (name_places grammars.0 grammars.1 offset earlier member.now) r) }
    ensures known { AreKnown pool.now known.new }
{
    let reason = name_reason(pool, known, grammars.0, member, is_repeat)?;
    if let Some(fault) = at_offset(offset, reason) {
        return Ok(Some(fault));
    }
    let reason = text_reason(pool, known, grammars.1, member.descriptor)?;
    Ok(at_offset(offset + INDEX, reason))
}

/// The first fault of a field, which begins at an offset.
fn field_fault(
    pool: &[PoolEntry],
    known: &mut KnownTexts,
    offset: u32,
    field: &Member,
    is_repeat: bool,
) -> Result<Option<(u32, Reason)>, AllocError>
    requires known_before { AreKnown pool.now known.old }
    requires size { offset + length (spelling.member field.now) < 2 ^ 32 }
    ensures exact { IfOk result (λ r. (earlier : List Member) → IsRepeat pool.now earlier field.now is_repeat
        → IsFirstBreach pool.now (field_places offset earlier field.now) r) }
    ensures known { AreKnown pool.now known.new }
{
    let grammars = (Grammar::FieldName, Grammar::FieldDescriptor);
    if let Some(fault) = names_fault(
        pool,
        known,
        grammars,
        offset + MEMBER_NAME,
        field,
        is_repeat,
    )? {
        return Ok(Some(fault));
    }
    Ok(attributes_fault(
        pool,
        offset + MEMBER_ATTRIBUTES,
        field.attributes.as_slice(),
    ))
}

/// The first fault of a method, which begins at an offset.
fn method_fault(
    pool: &[PoolEntry],
    known: &mut KnownTexts,
    offset: u32,
    method: &Member,
    is_repeat: bool,
) -> Result<Option<(u32, Reason)>, AllocError>
    requires known_before { AreKnown pool.now known.old }
    requires size { offset + length (spelling.member method.now) < 2 ^ 32 }
    ensures exact { IfOk result (λ r. (earlier : List Member) → IsRepeat pool.now earlier method.now is_repeat
        → IsFirstBreach pool.now (method_places offset earlier method.now) r) }
    ensures known { AreKnown pool.now known.new }
{
    if let Some(fault) = at_offset(offset, code_reason(pool, method)) {
        return Ok(Some(fault));
    }
    let grammars = (Grammar::MethodName, Grammar::MethodDescriptor);
    if let Some(fault) = names_fault(
        pool,
        known,
        grammars,
        offset + MEMBER_NAME,
        method,
        is_repeat,
    )? {
        return Ok(Some(fault));
    }
    Ok(code_fault(pool, offset + MEMBER_ATTRIBUTES, method))
}

/// The first fault of a field or a method, which begins at an offset.
pub(crate) fn member_fault(
    pool: &[PoolEntry],
    known: &mut KnownTexts,
    kind: MemberKind,
    offset: u32,
    member: &Member,
    is_repeat: bool,
) -> Result<Option<(u32, Reason)>, AllocError>
    requires known_before { AreKnown pool.now known.old }
    requires size { offset + length (spelling.member member.now) < 2 ^ 32 }
    ensures exact { IfOk result (λ r. (earlier : List Member) → IsRepeat pool.now earlier member.now is_repeat
        → IsFirstBreach pool.now (member_places kind offset earlier member.now) r) }
    ensures known { AreKnown pool.now known.new }
{
    match kind {
        MemberKind::Field => field_fault(pool, known, offset, member, is_repeat),
        MemberKind::Method => method_fault(pool, known, offset, member, is_repeat),
    }
}

/// The first fault of the fields or of the methods, which begin at an offset.
pub(crate) fn members_fault(
    alloc: Global,
    pool: &[PoolEntry],
    known: &mut KnownTexts,
    kind: MemberKind,
    start: u32,
    members: &[Member],
) -> Result<Option<(u32, Reason)>, AllocError>
    requires known_before { AreKnown pool.now known.old }
    requires size { start + length (flat_map spelling.member members.now) < 2 ^ 32 }
    ensures exact { IfOk result (IsFirstBreach pool.now (each_place (member_places kind) (λ m. length (spelling.member m)) start [] members.now)) }
    ensures known { AreKnown pool.now known.new }
{
    let repeated = repeats(alloc, pool, members)?;
    let mut offset = start;
    for (place, member) in members.iter().enumerate() {
        let is_repeat = repeated[place];
        if let Some(fault) = member_fault(pool, known, kind, offset, member, is_repeat)? {
            return Ok(Some(fault));
        }
        offset += member_length(member);
    }
    Ok(None)
}
