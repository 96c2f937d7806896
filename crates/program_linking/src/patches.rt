//! What is known of the methods of a class with what patches add to it.

ghost use Rattle.std.specs.Prelude.{◌≡◌, ◌⊎◌, map, flat_map, filter, IfOk, OnOk, IfErr};
ghost use Rattle.program_model.specs.MemberLists.{AreTooManyKeys};
ghost use Rattle.program_linking.specs.Patching.{description_of, is_native_in, native_keys, with_native};
ghost use Rattle.program_linking.specs.TooLarge.{AreTooManyDescriptions, AreTooManyNatives, TellsTooMany};
ghost use Rattle.jvm_model.specs.Linking.{descriptions, with_descriptions, stub_descriptions, native_descriptions};

use crate::descriptions::{Described, Descriptions};
use crate::natives::Natives;
use crate::patch_index::Patches;
use jvm_model::{ClassFile, StubClass};
use program_index::index_failure::IndexFailure;
use program_index::texts::class_text;
use std::alloc::Global;

/// What is known of the methods of a stub that is a class of its own: what it says, and what its patches say. The errors are
/// those of adding a description.
pub fn stub_descriptions<'a>(
    alloc: Global,
    patches: &Patches<'a>,
    class: &'a StubClass,
) -> Result<Descriptions<'a>, IndexFailure>
    ensures all { IfOk result (λ all. all ≡ stub_descriptions patches.now class.entry.now) }
    ensures too_many { IfErr result (TellsTooMany (AreTooManyDescriptions (stub_descriptions patches.now class.entry.now))) }
{
    let found = patches.of(class.name.as_slice());
    let mut all = Descriptions::of(alloc, class)?;
    for patch in found {
        all.add_all(patch)?;
    }
    Ok(all)
}

/// Adds what a patch says of native methods.
fn add_natives<'a>(
    all: &mut Descriptions<'a>,
    natives: &Natives<'_>,
    patch: &'a StubClass,
) -> Result<(), IndexFailure>
    ensures added { OnOk result (all.new ≡ with_descriptions all.old (filter (is_native_in natives.now) (descriptions patch.entry.now))) }
    ensures too_many { IfErr result (TellsTooMany (AreTooManyDescriptions
        (with_descriptions all.old (filter (is_native_in natives.now) (descriptions patch.entry.now))))) }
{
    for method in patch.methods.as_slice() {
        let described = Described {
            method,
            file: &patch.file,
        };
        add_native(all, natives, described)?;
    }
    Ok(())
}

/// Adds what patches say of native methods.
fn add_patches<'a>(
    all: &mut Descriptions<'a>,
    natives: &Natives<'_>,
    found: &[&'a StubClass],
) -> Result<(), IndexFailure>
    ensures added { OnOk result (all.new ≡ with_descriptions all.old (filter (is_native_in natives.now) (flat_map descriptions (map (λ s. s.now) found.now)))) }
    ensures too_many { IfErr result (TellsTooMany (AreTooManyDescriptions
        (with_descriptions all.old (filter (is_native_in natives.now) (flat_map descriptions (map (λ s. s.now) found.now)))))) }
{
    for patch in found {
        add_natives(all, natives, patch)?;
    }
    Ok(())
}

/// Adds a description, if it is one of a native method.
fn add_native<'a>(
    all: &mut Descriptions<'a>,
    natives: &Natives<'_>,
    described: Described<'a>,
) -> Result<(), IndexFailure>
    ensures added { OnOk result (all.new ≡ with_native natives.now all.old (description_of described.entry)) }
    ensures too_many { IfErr result (TellsTooMany (AreTooManyDescriptions (with_native natives.now all.old (description_of described.entry)))) }
{
    if natives.has(described.method) {
        all.add(described)
    } else {
        Ok(())
    }
}

/// Adds what patches say of native methods of a class file. The errors are those of adding a description, or a native method.
fn add_native_patches<'a>(
    alloc: Global,
    all: &mut Descriptions<'a>,
    found: &[&'a StubClass],
    class: &ClassFile,
) -> Result<(), IndexFailure>
    ensures added { OnOk result (all.new ≡ with_descriptions all.old (filter (is_native_in class.now) (flat_map descriptions (map (λ s. s.now) found.now)))) }
    ensures too_many { IfErr result (TellsTooMany (AreTooManyKeys (native_keys class.now.pool class.now.methods) ⊎ AreTooManyDescriptions
        (with_descriptions all.old (filter (is_native_in class.now) (flat_map descriptions (map (λ s. s.now) found.now)))))) }
{
    let natives = Natives::of(alloc, class)?;
    add_patches(all, &natives, found)
}

/// What patches say of native methods of a class file. The errors are those of adding a description, or a native method.
pub fn native_descriptions<'a>(
    alloc: Global,
    patches: &Patches<'a>,
    class: &ClassFile,
) -> Result<Descriptions<'a>, IndexFailure>
    ensures all { IfOk result (λ all. all ≡ native_descriptions patches.now class.now) }
    ensures too_many { IfErr result (TellsTooMany (AreTooManyNatives patches.now class.now)) }
{
    let name = class_text(class.pool.as_slice(), class.this_class);
    let mut all = Descriptions::new(alloc);
    add_native_patches(alloc, &mut all, patches.of(name), class)?;
    Ok(all)
}
