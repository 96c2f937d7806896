//! The constant pools of the sample (JVMS 4.4). The first entries of both are the same.

ghost use Rattle.std.specs.Prelude.{◌≡◌, ◌≤◌, ◌<◌, ◌+◌, ◌^◌, ◌++◌, ◌∷◌, [], OnOk, IfOk};
ghost use Rattle.std.specs.List.{flat_map};
ghost use Rattle.class_maker.specs.Sample.{shared_entries, entries_of_f, entries_of_sample, entries_of_method, below, sample_pool};
ghost use Rattle.class_maker.specs.Sample as definitions;

use crate::samples::MOST_METHODS;
use jvm_model::PoolEntry;
use jvm_model::sequence::{Bytes, Sequence};
use std::alloc::{AllocError, Global};

/// The index of the descriptor `()V`.
pub(super) const DESCRIPTOR: u16 = 2;

/// The index of the class Sample.
pub(super) const SAMPLE: u16 = 17;

/// The index of the name of the method of a number. Its name and type, and the method itself, stand behind it.
pub(super) fn name_of(number: u32) -> u16
    requires { number < MOST_METHODS }
    ensures { result ≡ definitions.name_of number }
{
    19 + 3 * number as u16
}

/// Adds a text.
fn push_text(alloc: Global, entries: &mut Vec<PoolEntry>, text: &str) -> Result<(), AllocError>
    ensures { OnOk result (entries.new.items ≡ entries.old.items ++ PoolEntry.Utf8 text.now ∷ []) }
{
    let text = Vec::from_slice(alloc, text.as_bytes())?;
    entries.push(PoolEntry::Utf8(Bytes::from_vec(text)))?;
    Ok(())
}

/// Adds the entries that both pools begin with.
fn push_shared(alloc: Global, entries: &mut Vec<PoolEntry>) -> Result<(), AllocError>
    ensures { OnOk result (entries.new.items ≡ entries.old.items ++ shared_entries) }
{
    push_text(alloc, entries, "Code")?;
    push_text(alloc, entries, "()V")?;
    push_text(alloc, entries, "java/lang/Object")?;
    entries.push(PoolEntry::Class(3))?;
    push_text(alloc, entries, "F")?;
    entries.push(PoolEntry::Class(5))?;
    push_text(alloc, entries, "<init>")?;
    entries.push(PoolEntry::NameAndType {
        name: 7,
        descriptor: DESCRIPTOR,
    })?;
    Ok(())
}

/// Adds the further entries of F.
fn push_entries_of_f(alloc: Global, entries: &mut Vec<PoolEntry>) -> Result<(), AllocError>
    ensures { OnOk result (entries.new.items ≡ entries.old.items ++ entries_of_f) }
{
    entries.push(PoolEntry::Methodref {
        class: 4,
        member: 8,
    })?;
    push_text(alloc, entries, "open")?;
    push_text(alloc, entries, "read")?;
    push_text(alloc, entries, "close")
}

/// Adds a method of F by its name: the name, the name with the descriptor, and the method.
fn push_method_of_f(
    alloc: Global,
    entries: &mut Vec<PoolEntry>,
    name: &str,
    index: u16,
) -> Result<(), AllocError>
    requires { index + 1 < 2 ^ 16 }
    ensures { OnOk result (entries.new.items ≡ entries.old.items ++ PoolEntry.Utf8 name.now ∷ PoolEntry.NameAndType index 2 ∷ PoolEntry.Methodref 6 (index + 1) ∷ []) }
{
    push_text(alloc, entries, name)?;
    entries.push(PoolEntry::NameAndType {
        name: index,
        descriptor: DESCRIPTOR,
    })?;
    entries.push(PoolEntry::Methodref {
        class: 6,
        member: index + 1,
    })?;
    Ok(())
}

/// Adds the further entries of Sample, but for those of its methods.
fn push_entries_of_sample(alloc: Global, entries: &mut Vec<PoolEntry>) -> Result<(), AllocError>
    ensures { OnOk result (entries.new.items ≡ entries.old.items ++ entries_of_sample) }
{
    entries.push(PoolEntry::Methodref {
        class: 6,
        member: 8,
    })?;
    push_method_of_f(alloc, entries, "read", 10)?;
    push_method_of_f(alloc, entries, "close", 13)?;
    push_text(alloc, entries, "Sample")?;
    entries.push(PoolEntry::Class(16))?;
    push_text(alloc, entries, "main")
}

/// Adds the entries of the method of a number.
fn push_entries_of_method(
    alloc: Global,
    entries: &mut Vec<PoolEntry>,
    number: u32,
) -> Result<(), AllocError>
    requires { number < MOST_METHODS }
    ensures { OnOk result (entries.new.items ≡ entries.old.items ++ entries_of_method number) }
{
    let name = name_of(number);
    let text = format!(in alloc; "m{number}")?;
    push_text(alloc, entries, text.as_str())?;
    entries.push(PoolEntry::NameAndType {
        name,
        descriptor: DESCRIPTOR,
    })?;
    entries.push(PoolEntry::Methodref {
        class: SAMPLE,
        member: name + 1,
    })?;
    Ok(())
}

/// Adds the entries of so many methods.
fn push_entries_of_methods(
    alloc: Global,
    entries: &mut Vec<PoolEntry>,
    count: u32,
) -> Result<(), AllocError>
    requires { count ≤ MOST_METHODS }
    ensures { OnOk result (entries.new.items ≡ entries.old.items ++ flat_map entries_of_method (below count)) }
{
    for number in 0..count {
        push_entries_of_method(alloc, entries, number)?;
    }
    Ok(())
}

/// The constant pool of F.
pub(super) fn pool_of_f(alloc: Global) -> Result<Sequence<PoolEntry>, AllocError>
    ensures { IfOk result (λ pool. pool ≡ shared_entries ++ entries_of_f) }
{
    let mut entries = Vec::new(alloc);
    push_shared(alloc, &mut entries)?;
    push_entries_of_f(alloc, &mut entries)?;
    Ok(Sequence::from_vec(entries))
}

/// The constant pool of Sample.
pub(super) fn pool_of_sample(alloc: Global, count: u32) -> Result<Sequence<PoolEntry>, AllocError>
    requires { count ≤ MOST_METHODS }
    ensures { IfOk result (λ pool. pool ≡ sample_pool count) }
{
    let mut entries = Vec::new(alloc);
    push_shared(alloc, &mut entries)?;
    push_entries_of_sample(alloc, &mut entries)?;
    push_entries_of_methods(alloc, &mut entries, count)?;
    Ok(Sequence::from_vec(entries))
}
