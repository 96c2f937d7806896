//! The units of the values that a descriptor is of (JVMS 2.6.2, 4.3): one for each, but two for a long or a double.

ghost use Rattle.std.specs.Prelude.{◌≡◌, ◌≤◌, length, IfOk, Some, option_map};
ghost use Rattle.jvm_model.specs.Descriptors.{IsMethodDescriptor};
ghost use Rattle.jvm_model.specs.Instructions.{kinds_of, member_in, member_at};
ghost use Rattle.jvm_model.specs.Lookups.{MemberReference, entry_at};
ghost use Rattle.code_reader.specs.Parameters.{HasFewUnits};
ghost use Rattle.flow_graph.specs.Reading.{HasCounts, outcome_units, spelled_units, member_descriptor_at, site_descriptor_at, signature_descriptor_at};

use jvm_model::descriptor::units_of;
use jvm_model::lookup::{class_name_at, signature_at};
use jvm_model::{Descriptor, Kind, PoolEntry, descriptor_of};
use std::alloc::{AllocError, Global};

/// The units of a method: those of its parameters, without the receiver, and those of its result.
#[derive(Clone, Copy, Debug, PartialEq, Eq)]
pub(crate) struct MethodUnits {
    pub(crate) parameters: u16,
    pub(crate) results: u16,
}

/// The units of a method descriptor.
pub(crate) fn method_units(alloc: Global, descriptor: &[u8]) -> Result<MethodUnits, AllocError>
    ensures few { IfOk result (λ u. u.parameters ≤ 255) }
    ensures exact { IfOk result (λ u. IsMethodDescriptor descriptor.now → HasCounts descriptor.now u) }
{
    let spelled = descriptor_of(alloc, descriptor)?;
    Ok(spelled_units(&spelled))
}

/// The units of a method descriptor that was read; none of another one.
fn spelled_units(spelled: &Option<Descriptor>) -> MethodUnits
    requires { HasFewUnits spelled.now }
    ensures { result ≡ spelled_units spelled.now }
{
    match spelled {
        Some(
            Descriptor::Method {
                parameters: kinds,
                outcome,
            },
        ) => MethodUnits {
            parameters: units_of(kinds.as_slice()),
            results: outcome_units(outcome),
        },
        _ => MethodUnits {
            parameters: 0,
            results: 0,
        },
    }
}

/// How many units a result takes: none where it is void.
fn outcome_units(outcome: &Option<Kind>) -> u16
    ensures { result ≡ outcome_units outcome.now }
{
    match outcome {
        Some(kind) => kind.units(),
        None => 0,
    }
}

/// How many units a field of a descriptor takes, by its first letter.
pub(crate) fn field_units(descriptor: &[u8]) -> u16
    ensures exact { result ≡ length (kinds_of descriptor.now) }
    ensures few { result ≤ 2 }
{
    match descriptor {
        [b'J' | b'D', ..] => 2,
        [] | [b'V', ..] => 0,
        _ => 1,
    }
}

/// The entry at an index of the constant pool, which counts from 1.
fn entry_at(pool: &[PoolEntry], index: u32) -> Option<&PoolEntry>
    ensures { option_map (λ e. e.now) result ≡ entry_at pool.now index }
{
    let place = index.checked_sub(1)?;
    pool.get(place as usize)
}

/// The descriptor of the field or the method that the entry at an index names (JVMS 4.4.2).
fn member_descriptor(pool: &[PoolEntry], index: u32) -> Option<&[u8]>
    ensures { option_map (λ d. d.now) result ≡ option_map (λ (m : MemberReference). m.signature.descriptor) (member_at pool.now index) }
{
    match entry_at(pool, index)? {
        PoolEntry::Fieldref {
            class,
            member: signature,
        } => descriptor_in(pool, *class, *signature),
        PoolEntry::Methodref {
            class,
            member: signature,
        } => descriptor_in(pool, *class, *signature),
        PoolEntry::InterfaceMethodref {
            class,
            member: signature,
        } => descriptor_in(pool, *class, *signature),
        _ => None,
    }
}

/// The descriptor of a member that is named by its class, and by its name and descriptor.
fn descriptor_in(pool: &[PoolEntry], class: u16, signature: u16) -> Option<&[u8]>
    ensures { option_map (λ d. d.now) result ≡ option_map (λ (m : MemberReference). m.signature.descriptor) (member_in pool.now class signature) }
{
    let _class = class_name_at(pool, class)?;
    let signature = signature_at(pool, signature)?;
    Some(signature.descriptor)
}

/// The same as a text, which is empty where none is named.
pub(crate) fn member_text(pool: &[PoolEntry], index: u32) -> &[u8]
    ensures { (m : MemberReference) → member_at pool.now index ≡ Some m → result.now ≡ m.signature.descriptor }
{
    match member_descriptor(pool, index) {
        Some(descriptor) => descriptor,
        None => &[],
    }
}

/// The index of the text that is the descriptor of the field or the method that the entry at an index names (JVMS 4.4.2).
pub(crate) fn member_descriptor_at(pool: &[PoolEntry], index: u32) -> Option<u16>
    ensures { result ≡ member_descriptor_at pool.now index }
{
    match entry_at(pool, index)? {
        PoolEntry::Fieldref {
            member: signature,
            ..
        } => signature_descriptor_at(pool, *signature),
        PoolEntry::Methodref {
            member: signature,
            ..
        } => signature_descriptor_at(pool, *signature),
        PoolEntry::InterfaceMethodref {
            member: signature,
            ..
        } => signature_descriptor_at(pool, *signature),
        _ => None,
    }
}

/// The index of the text that is the descriptor of the call site at an index (JVMS 4.4.10).
pub(crate) fn site_descriptor_at(pool: &[PoolEntry], index: u32) -> Option<u16>
    ensures { result ≡ site_descriptor_at pool.now index }
{
    match entry_at(pool, index)? {
        PoolEntry::InvokeDynamic {
            member: signature,
            ..
        } => signature_descriptor_at(pool, *signature),
        _ => None,
    }
}

/// The index of the text that is the descriptor of the name and descriptor at an index (JVMS 4.4.6).
fn signature_descriptor_at(pool: &[PoolEntry], index: u16) -> Option<u16>
    ensures { result ≡ signature_descriptor_at pool.now index }
{
    match entry_at(pool, u32::from(index))? {
        PoolEntry::NameAndType { descriptor, .. } => Some(*descriptor),
        _ => None,
    }
}
