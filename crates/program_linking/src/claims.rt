//! What linking demands before the classes are put in order: that their names differ, that what they name is there, and that
//! it is of the right kind (JVMS 5.3, 5.3.5). Each check reports the first demand that is not met.

ghost use Rattle.std.specs.Prelude.{◌≡◌, All};
ghost use Rattle.program_linking.specs.Claims.{TellsClaims, TellsClaimsOrLarge, Knows, unsorted};
ghost use Rattle.jvm_model.specs.Linking.{own_classes, name_claims, there_claims, kind_claims};
ghost use Rattle.program_linking.specs.LinkAnswers.{IsSoundFile};
ghost use Rattle.program_linking.specs.TooLarge.{IsTooLargeInput};

use crate::class_names::{check_file_names, check_stub_names, stub_names};
use crate::known::Known;
use crate::mentions::{check_natives, check_stubs};
use crate::patch_index::Patches;
use crate::supers::{SuperRule, check_supers_of_files, check_supers_of_stubs};
use failure::Failure;
use jvm_model::{NamedClass, StubClass};
use program_model::link_failure::LinkFailure;
use std::alloc::Global;

/// The names of all classes differ: of class files among each other and from all stubs; and then of stubs among each other, those
/// that are there from the start first.
pub fn check_names(
    alloc: Global,
    files: &[NamedClass],
    stubs: &[StubClass],
) -> Result<(), LinkFailure>
    requires { All IsSoundFile files.now }
    ensures { TellsClaimsOrLarge (IsTooLargeInput files.now stubs.now) (unsorted files.now stubs.now) (name_claims files.now (own_classes stubs.now)) result }
{
    let others = stub_names(alloc, stubs).map_err(Failure::widen)?;
    check_file_names(alloc, &others, files)?;
    check_stub_names(alloc, stubs)
}

/// All classes that are named are there: supertypes of class files; supertypes of stubs, and what stubs mention; and what
/// descriptions of native methods mention.
pub fn check_presence(
    alloc: Global,
    known: &Known,
    patches: &Patches<'_>,
    files: &[NamedClass],
    stubs: &[StubClass],
) -> Result<(), LinkFailure>
    requires known { Knows known.now (unsorted files.now stubs.now) }
    requires patches { patches.now ≡ stubs.now }
    requires files { All IsSoundFile files.now }
    ensures { TellsClaimsOrLarge (IsTooLargeInput files.now stubs.now) (unsorted files.now stubs.now) (there_claims files.now stubs.now) result }
{
    check_supers_of_files(alloc, known, SuperRule::There, files)?;
    check_stubs(alloc, known, patches, stubs)?;
    check_natives(alloc, known, patches, files)
}

/// Superclasses are no interfaces, and superinterfaces are: for each class file, and then for each stub.
pub fn check_kinds(
    alloc: Global,
    known: &Known,
    files: &[NamedClass],
    stubs: &[StubClass],
) -> Result<(), LinkFailure>
    requires known { Knows known.now (unsorted files.now stubs.now) }
    requires files { All IsSoundFile files.now }
    ensures { TellsClaims (unsorted files.now stubs.now) (kind_claims files.now (own_classes stubs.now)) result }
{
    check_supers_of_files(alloc, known, SuperRule::Kind, files)?;
    check_supers_of_stubs(alloc, known, SuperRule::Kind, stubs)
}
