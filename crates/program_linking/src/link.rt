//! Linking: from the class files of a folder and from stubs to one program.

ghost use Rattle.std.specs.Prelude.{◌≡◌, ◌++◌, All, IfOk};
ghost use Rattle.std.specs.Ordering.{nat_cmp};
ghost use Rattle.std.specs.Cmp.Lexicographic.{slice_cmp};
ghost use Rattle.jvm_model.specs.LinkedPrograms.{HasStubClasses};
ghost use Rattle.jvm_model.specs.Linking.{IsFileOrder, IsOrder, class_from, kind_claims, own_classes, there_claims};
ghost use Rattle.jvm_model.specs.StubRules.{IsSoundStub};
ghost use Rattle.program_linking.specs.Claims.{Knows, TellsClaimsOrLarge, unsorted};
ghost use Rattle.program_linking.specs.LinkAnswers.{flat_claims, IsSoundFile, IsLinkAnswer, IsAnswerInOrder};
ghost use Rattle.program_linking.specs.TooLarge.{IsTooLargeInput};

use crate::claims::{check_kinds, check_names, check_presence};
use crate::known::{Known, known_classes};
use crate::origins::origins;
use crate::patch_index::Patches;
use failure::Failure;
use jvm_model::{NamedClass, Origin, StubClass};
use program_model::link_failure::LinkFailure;
use program_model::origin::name;
use program_model::program::Program;
use std::alloc::Global;
use std::cmp::Ordering;

/// Links class files and stubs to a program (JVMS 5.3). The class files, in whatever order they come, are taken in byte order of the
/// names of their files, and are moved. Patches add to the classes of their names.
///
/// Refused at the first demand that is not met, of these in order:
///
/// - `DuplicateClass` at the index of the class itself in a file, if an earlier file or a stub has its name; and at a stub's
///   file, if an earlier stub has its name, where the stubs that are there from the start come before those of the user's files;
/// - `MissingClass` at the index of a supertype that is not there; and at a stub's file, if a supertype is not there, or a class
///   that a result, an exception or a field mentions;
/// - `KindMismatch` at the index of a superclass that is an interface, or of a superinterface that is none; or at a stub's file;
/// - `Cycle` at the index of the class itself, or at a stub's file, for the class of the least name that is above itself
///   (5.3.5).
///
/// What is reported at a stub's file has the offset 0. `OutOfMemory` is reported where an allocation fails.
///
/// `TooMany` is reported only where linking has 2^32 - 1 or more items of a kind to number: the classes; the patches; the methods or
/// the fields of the program; what stubs say of the methods of one class; or the different names and descriptors in these.
///
/// Each stub that is a class of its own is a class of the program, as it describes itself.
pub fn link(
    alloc: Global,
    mut classes: Vec<NamedClass>,
    stubs: Vec<StubClass>,
) -> Result<Program, LinkFailure>
    requires files { All IsSoundFile classes.items }
    requires stubs { All IsSoundStub stubs.items }
    ensures tells { IsLinkAnswer classes.items stubs.items result }
    ensures base { IfOk result (λ p. HasStubClasses p stubs.items) }
{
    put_files_in_order(&mut classes);
    link_in_order(alloc, classes, stubs)
}

/// Links class files that are in byte order of the names of their files, and stubs.
fn link_in_order(
    alloc: Global,
    files: Vec<NamedClass>,
    stubs: Vec<StubClass>,
) -> Result<Program, LinkFailure>
    requires files { All IsSoundFile files.items }
    requires stubs { All IsSoundStub stubs.items }
    ensures tells { IsAnswerInOrder files.items stubs.items result }
    ensures base { IfOk result (λ p. HasStubClasses p stubs.items) }
{
    check(alloc, &files, &stubs)?;
    let mut order = origins(alloc, files, stubs).map_err(Failure::widen)?;
    put_in_order(&mut order);
    Program::assemble(alloc, order)
}

/// What is demanded before the classes are put in order.
fn check(alloc: Global, files: &[NamedClass], stubs: &[StubClass]) -> Result<(), LinkFailure>
    requires { All IsSoundFile files.now }
    ensures { TellsClaimsOrLarge (IsTooLargeInput files.now stubs.now) (unsorted files.now stubs.now) (flat_claims files.now stubs.now) result }
{
    check_names(alloc, files, stubs)?;
    let known = known_classes(alloc, files, stubs).map_err(Failure::widen)?;
    check_known(alloc, &known, files, stubs)
}

/// What is demanded once the names and the kinds of all classes are known.
fn check_known(
    alloc: Global,
    known: &Known,
    files: &[NamedClass],
    stubs: &[StubClass],
) -> Result<(), LinkFailure>
    requires known { Knows known.now (unsorted files.now stubs.now) }
    requires files { All IsSoundFile files.now }
    ensures { TellsClaimsOrLarge (IsTooLargeInput files.now stubs.now) (unsorted files.now stubs.now)
        (there_claims files.now stubs.now ++ kind_claims files.now (own_classes stubs.now)) result }
{
    check_all_there(alloc, known, files, stubs)?;
    check_kinds(alloc, known, files, stubs)
}

/// All classes that are named are there, by class files, by stubs, or by the patches among these.
fn check_all_there(
    alloc: Global,
    known: &Known,
    files: &[NamedClass],
    stubs: &[StubClass],
) -> Result<(), LinkFailure>
    requires known { Knows known.now (unsorted files.now stubs.now) }
    requires files { All IsSoundFile files.now }
    ensures { TellsClaimsOrLarge (IsTooLargeInput files.now stubs.now) (unsorted files.now stubs.now) (there_claims files.now stubs.now) result }
{
    let patches = Patches::new(alloc, stubs).map_err(Failure::widen)?;
    check_presence(alloc, known, &patches, files, stubs)
}

/// Puts class files in byte order of the names of their files.
fn put_files_in_order(files: &mut Vec<NamedClass>)
    ensures { IsFileOrder files.old.items files.new.items }
{
    files.sort_unstable_by(
        |a: &NamedClass, b: &NamedClass| -> Ordering
            ensures { result ≡ slice_cmp nat_cmp a.now.file b.now.file }
        { a.file.as_str().cmp(b.file.as_str()) },
    );
}

/// Puts classes in byte order of their names.
fn put_in_order(order: &mut Vec<Origin>)
    ensures { IsOrder order.old.items order.new.items }
{
    order.sort_unstable_by(
        |a: &Origin, b: &Origin| -> Ordering
            ensures { result ≡ slice_cmp nat_cmp (class_from a.now).name (class_from b.now).name }
        { name(a).cmp(name(b)) },
    );
}
