//! The classes that stubs mention are there.

ghost use Rattle.std.specs.Prelude.{[], ◌∷◌, map, flat_map};
ghost use Rattle.program_linking.specs.Claims.{TellsClaims, TellsClaimsOrLarge, of_own};
ghost use Rattle.program_linking.specs.Patching.{description_of, own_one};
ghost use Rattle.program_linking.specs.TooLarge.{AreTooManyDescriptions, AreTooManyNatives, HasLargeFile, HasLargeStub};
ghost use Rattle.jvm_model.specs.Linking.{stub_descriptions, mention_claim, description_claims, stub_there_claims, native_claims, own_classes};
ghost use Rattle.jvm_model.specs.Stubs.{result_names, method_names, field_names};

use crate::descriptions::{Described, Descriptions};
use crate::known::Known;
use crate::patch_index::Patches;
use crate::patches::{native_descriptions, stub_descriptions};
use crate::supers::{SuperRule, check_stub_supers, check_there};
use failure::Failure;
use jvm_model::result_class::result_class;
use jvm_model::{Name, NamedClass, StubClass, StubField, StubMethod, StubResult};
use program_model::link_failure::LinkFailure;
use std::alloc::Global;

/// A class that a file mentions.
fn check_mention(alloc: Global, known: &Known, file: &Name, name: &[u8]) -> Result<(), LinkFailure>
    ensures { TellsClaims known.now (mention_claim file.now name.now ∷ []) result }
{
    check_there(alloc, known, name, file, 0)
}

/// The class that a result of a call mentions.
fn check_result(
    alloc: Global,
    known: &Known,
    file: &Name,
    descriptor: &[u8],
    returned: &StubResult,
) -> Result<(), LinkFailure>
    ensures { TellsClaims known.now (map (mention_claim file.now) (result_names descriptor.now returned.now)) result }
{
    match returned {
        StubResult::New(name) => check_mention(alloc, known, file, name.as_slice()),
        StubResult::Kept => match result_class(descriptor) {
            Some(name) => check_mention(alloc, known, file, name),
            None => Ok(()),
        },
        StubResult::Primitive => Ok(()),
        StubResult::Void => Ok(()),
        StubResult::Null => Ok(()),
        StubResult::Given(_) => Ok(()),
    }
}

/// The classes that the results of a method mention.
fn check_results(
    alloc: Global,
    known: &Known,
    file: &Name,
    method: &StubMethod,
) -> Result<(), LinkFailure>
    ensures { TellsClaims known.now (map (mention_claim file.now) (flat_map (result_names method.now.descriptor) method.now.returns)) result }
{
    for returned in method.returns.as_slice() {
        check_result(alloc, known, file, method.descriptor.as_slice(), returned)?;
    }
    Ok(())
}

/// The classes of the exceptions of a method.
fn check_throws(
    alloc: Global,
    known: &Known,
    file: &Name,
    method: &StubMethod,
) -> Result<(), LinkFailure>
    ensures { TellsClaims known.now (map (mention_claim file.now) method.now.throws) result }
{
    for name in method.throws.as_slice() {
        check_mention(alloc, known, file, name.as_slice())?;
    }
    Ok(())
}

/// The classes that a method mentions.
fn check_method(
    alloc: Global,
    known: &Known,
    file: &Name,
    method: &StubMethod,
) -> Result<(), LinkFailure>
    ensures { TellsClaims known.now (map (mention_claim file.now) (method_names method.now)) result }
{
    check_results(alloc, known, file, method)?;
    check_throws(alloc, known, file, method)
}

/// The classes that descriptions mention.
fn check_descriptions(
    alloc: Global,
    known: &Known,
    all: &[Described<'_>],
) -> Result<(), LinkFailure>
    ensures { TellsClaims known.now (description_claims (map description_of all.now)) result }
{
    for described in all {
        check_method(alloc, known, described.file, described.method)?;
    }
    Ok(())
}

/// The class of the object that a field holds.
fn check_field(
    alloc: Global,
    known: &Known,
    file: &Name,
    field: &StubField,
) -> Result<(), LinkFailure>
    ensures { TellsClaims known.now (map (mention_claim file.now) (field_names field.now)) result }
{
    match &field.holds {
        Some(name) => check_mention(alloc, known, file, name.as_slice()),
        None => Ok(()),
    }
}

/// The classes that the fields of a stub mention.
fn check_fields(alloc: Global, known: &Known, c: &StubClass) -> Result<(), LinkFailure>
    ensures { TellsClaims known.now (map (mention_claim c.now.file) (flat_map field_names c.now.fields)) result }
{
    for field in c.fields.as_slice() {
        check_field(alloc, known, &c.file, field)?;
    }
    Ok(())
}

/// All classes that a stub names: supertypes, those of its fields, and those of its methods and of its patches.
fn check_stub(
    alloc: Global,
    known: &Known,
    patches: &Patches<'_>,
    c: &StubClass,
) -> Result<(), LinkFailure>
    ensures { TellsClaimsOrLarge (AreTooManyDescriptions (stub_descriptions patches.now c.now)) known.now (stub_there_claims patches.now c.now) result }
{
    check_stub_supers(alloc, known, SuperRule::There, c)?;
    check_fields(alloc, known, c)?;
    check_stub_methods(alloc, known, patches, c)
}

/// The classes that the methods of a stub and of its patches mention.
fn check_stub_methods(
    alloc: Global,
    known: &Known,
    patches: &Patches<'_>,
    c: &StubClass,
) -> Result<(), LinkFailure>
    ensures { TellsClaimsOrLarge (AreTooManyDescriptions (stub_descriptions patches.now c.now)) known.now
        (description_claims (stub_descriptions patches.now c.now)) result }
{
    let all = stub_descriptions(alloc, patches, c).map_err(Failure::widen)?;
    check_descriptions(alloc, known, all.as_slice())
}

/// The same of a stub that is a class of its own.
fn check_own_stub(
    alloc: Global,
    known: &Known,
    patches: &Patches<'_>,
    c: &StubClass,
) -> Result<(), LinkFailure>
    ensures { TellsClaimsOrLarge (HasLargeStub patches.now (own_one c.now)) known.now (of_own (stub_there_claims patches.now) c.now) result }
{
    if c.is_patch {
        return Ok(());
    }
    check_stub(alloc, known, patches, c)
}

/// All classes that stubs name, where they are classes of their own.
pub(crate) fn check_stubs(
    alloc: Global,
    known: &Known,
    patches: &Patches<'_>,
    stubs: &[StubClass],
) -> Result<(), LinkFailure>
    ensures { TellsClaimsOrLarge (HasLargeStub patches.now (own_classes stubs.now)) known.now
        (flat_map (stub_there_claims patches.now) (own_classes stubs.now)) result }
{
    for c in stubs {
        check_own_stub(alloc, known, patches, c)?;
    }
    Ok(())
}

/// The classes that descriptions of native methods of a class file mention.
fn check_file_natives(
    alloc: Global,
    known: &Known,
    patches: &Patches<'_>,
    f: &NamedClass,
) -> Result<(), LinkFailure>
    ensures { TellsClaimsOrLarge (AreTooManyNatives patches.now f.now.class) known.now (native_claims patches.now f.now) result }
{
    let all = native_descriptions(alloc, patches, &f.class).map_err(Failure::widen)?;
    check_descriptions(alloc, known, all.as_slice())
}

/// The classes that descriptions of native methods of class files mention.
pub(crate) fn check_natives(
    alloc: Global,
    known: &Known,
    patches: &Patches<'_>,
    files: &[NamedClass],
) -> Result<(), LinkFailure>
    ensures { TellsClaimsOrLarge (HasLargeFile patches.now files.now) known.now (flat_map (native_claims patches.now) files.now) result }
{
    for f in files {
        check_file_natives(alloc, known, patches, f)?;
    }
    Ok(())
}
