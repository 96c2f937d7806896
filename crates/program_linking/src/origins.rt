//! Where the classes of a program come from: the class files, and the stubs with what patches add to them.

ghost use Rattle.std.specs.Prelude.{◌≡◌, ◌⊎◌, ◌++◌, map, filter, All, IfOk, OnOk, IfErr};
ghost use Rattle.program_index.specs.Limits.{AreTooMany};
ghost use Rattle.failure.specs.declared.Failure.TheVariants.{OutOfMemory};
ghost use Rattle.program_linking.specs.LinkAnswers.{IsSoundFile};
ghost use Rattle.program_linking.specs.Patching.{is_patch_stub, own_one, patch_one};
ghost use Rattle.program_linking.specs.TooLarge.{AreTooManyDescriptions, AreTooManyNatives, HasLargeFile, HasLargeStub, IsTooLargeInput, TellsTooMany};
ghost use Rattle.jvm_model.specs.Linking.{described_methods, origins, folder_origin, stub_origin, native_descriptions, stub_descriptions, own_classes};

use crate::copies::copied_methods;
use crate::descriptions::Descriptions;
use crate::patch_index::Patches;
use crate::patches::{native_descriptions, stub_descriptions};
use jvm_model::{NamedClass, Origin, Sequence, StubClass, StubMethod};
use program_index::index_failure::IndexFailure;
use std::alloc::{AllocError, Global};

/// Stubs that are classes of their own, and patches.
#[derive(Drop)]
struct Parted {
    own: Vec<StubClass>,
    patches: Vec<StubClass>,
}

/// Where the classes come from, in the order given: class files, and then stubs that are classes of their own. Class files are
/// moved; what stubs say of methods is copied. The failure is `TooMany` only where there is too much to number.
pub fn origins(
    alloc: Global,
    files: Vec<NamedClass>,
    stubs: Vec<StubClass>,
) -> Result<Vec<Origin>, IndexFailure>
    requires { All IsSoundFile files.items }
    ensures all { IfOk result (λ all. all.items ≡ origins files.items stubs.items) }
    ensures too_many { IfErr result (TellsTooMany (IsTooLargeInput files.items stubs.items)) }
{
    let Parted { own, patches } = part(alloc, stubs)?;
    origins_patched(alloc, files, own, patches.as_slice())
}

/// Where these classes come from: class files, and then stubs, with what patches add to them.
fn origins_patched(
    alloc: Global,
    files: Vec<NamedClass>,
    own: Vec<StubClass>,
    patches: &[StubClass],
) -> Result<Vec<Origin>, IndexFailure>
    ensures all { IfOk result (λ all. all.items ≡ map (folder_origin patches.now) files.items ++ map (stub_origin patches.now) own.items) }
    ensures too_many { IfErr result (TellsTooMany (AreTooMany (filter is_patch_stub patches.now)
        ⊎ (HasLargeFile patches.now files.items ⊎ HasLargeStub patches.now own.items))) }
{
    let patches = Patches::new(alloc, patches)?;
    origins_found(alloc, &patches, files, own)
}

/// The same where the patches are found by the name of their class.
fn origins_found(
    alloc: Global,
    patches: &Patches<'_>,
    files: Vec<NamedClass>,
    own: Vec<StubClass>,
) -> Result<Vec<Origin>, IndexFailure>
    ensures all { IfOk result (λ all. all.items ≡ map (folder_origin patches.now) files.items ++ map (stub_origin patches.now) own.items) }
    ensures too_many { IfErr result (TellsTooMany (HasLargeFile patches.now files.items ⊎ HasLargeStub patches.now own.items)) }
{
    let mut all = Vec::new(alloc);
    add_files(alloc, &mut all, patches, files)?;
    add_stubs(alloc, &mut all, patches, own)?;
    Ok(all)
}

/// Stubs, parted.
fn part(alloc: Global, stubs: Vec<StubClass>) -> Result<Parted, AllocError>
    ensures own { IfOk result (λ parted. parted.own.items ≡ own_classes stubs.items) }
    ensures patches { IfOk result (λ parted. parted.patches.items ≡ filter is_patch_stub stubs.items) }
{
    let mut own = Vec::new(alloc);
    let mut patches = Vec::new(alloc);
    for c in stubs {
        put(&mut own, &mut patches, c)?;
    }
    Ok(Parted { own, patches })
}

/// Puts a stub where it belongs.
fn put(
    own: &mut Vec<StubClass>,
    patches: &mut Vec<StubClass>,
    c: StubClass,
) -> Result<(), AllocError>
    ensures own { OnOk result (own.new.items ≡ own.old.items ++ own_one c) }
    ensures patches { OnOk result (patches.new.items ≡ patches.old.items ++ patch_one c) }
{
    if c.is_patch {
        patches.push(c)?;
        return Ok(());
    }
    own.push(c)?;
    Ok(())
}

/// The origin of a class file.
fn origin_of_file(
    alloc: Global,
    patches: &Patches<'_>,
    f: NamedClass,
) -> Result<Origin, IndexFailure>
    ensures origin { IfOk result (λ o. o ≡ folder_origin patches.now f) }
    ensures too_many { IfErr result (TellsTooMany (AreTooManyNatives patches.now f.class)) }
{
    let natives = told_of_file(alloc, patches, &f)?;
    Ok(Origin::Folder { file: f, natives })
}

/// What patches say of the native methods of a class file.
fn told_of_file(
    alloc: Global,
    patches: &Patches<'_>,
    f: &NamedClass,
) -> Result<Sequence<StubMethod>, IndexFailure>
    ensures all { IfOk result (λ all. all ≡ described_methods (native_descriptions patches.now f.now.class)) }
    ensures too_many { IfErr result (TellsTooMany (AreTooManyNatives patches.now f.now.class)) }
{
    let all = native_descriptions(alloc, patches, &f.class)?;
    copied_descriptions(alloc, &all)
}

/// Copies of what descriptions say. The failure is out of memory.
fn copied_descriptions(
    alloc: Global,
    all: &Descriptions<'_>,
) -> Result<Sequence<StubMethod>, IndexFailure>
    ensures copies { IfOk result (λ copies. copies ≡ described_methods all.now) }
    ensures memory { IfErr result (λ error. error ≡ OutOfMemory) }
{
    Ok(copied_methods(alloc, all.as_slice())?)
}

/// The origin of a stub.
fn origin_of_stub(
    alloc: Global,
    patches: &Patches<'_>,
    mut c: StubClass,
) -> Result<Origin, IndexFailure>
    ensures origin { IfOk result (λ o. o ≡ stub_origin patches.now c) }
    ensures too_many { IfErr result (TellsTooMany (AreTooManyDescriptions (stub_descriptions patches.now c))) }
{
    c.methods = told_of_stub(alloc, patches, &c)?;
    Ok(Origin::Stub(c))
}

/// What a stub and its patches say of methods.
fn told_of_stub(
    alloc: Global,
    patches: &Patches<'_>,
    c: &StubClass,
) -> Result<Sequence<StubMethod>, IndexFailure>
    ensures all { IfOk result (λ all. all ≡ described_methods (stub_descriptions patches.now c.now)) }
    ensures too_many { IfErr result (TellsTooMany (AreTooManyDescriptions (stub_descriptions patches.now c.now))) }
{
    let all = stub_descriptions(alloc, patches, c)?;
    copied_descriptions(alloc, &all)
}

/// Adds class files.
fn add_files(
    alloc: Global,
    all: &mut Vec<Origin>,
    patches: &Patches<'_>,
    files: Vec<NamedClass>,
) -> Result<(), IndexFailure>
    ensures added { OnOk result (all.new.items ≡ all.old.items ++ map (folder_origin patches.now) files.items) }
    ensures too_many { IfErr result (TellsTooMany (HasLargeFile patches.now files.items)) }
{
    for f in files {
        let origin = origin_of_file(alloc, patches, f)?;
        all.push(origin)?;
    }
    Ok(())
}

/// Adds stubs.
fn add_stubs(
    alloc: Global,
    all: &mut Vec<Origin>,
    patches: &Patches<'_>,
    stubs: Vec<StubClass>,
) -> Result<(), IndexFailure>
    ensures added { OnOk result (all.new.items ≡ all.old.items ++ map (stub_origin patches.now) stubs.items) }
    ensures too_many { IfErr result (TellsTooMany (HasLargeStub patches.now stubs.items)) }
{
    for c in stubs {
        let origin = origin_of_stub(alloc, patches, c)?;
        all.push(origin)?;
    }
    Ok(())
}
