//! What linking demands of supertypes: that they are there, and of the right kind (JVMS 5.3.5). Each check reports the first demand
//! that is not met.

ghost use Rattle.std.specs.Prelude.{[], ◌∷◌, map, flat_map, All};
ghost use Rattle.std.specs.Option.{option_to_list};
ghost use Rattle.program_linking.specs.Claims.{TellsClaims, super_claim, of_own};
ghost use Rattle.program_linking.specs.Supers.{named_super, stub_superclass, stub_interfaces};
ghost use Rattle.jvm_model.specs.Linking.{claim, is_there, of_kind, own_classes, interface_places, superclass_place, supers_of_file, supers_of_stub};
ghost use Rattle.jvm_model.specs.Lookups.{class_name_at};
ghost use Rattle.jvm_model.specs.Soundness.{interfaces_offset};
ghost use Rattle.program_linking.specs.LinkAnswers.{IsSoundFile};

use crate::known::Known;
use jvm_model::layout::{interfaces_offset, super_class_offset};
use jvm_model::lookup::class_name_at;
use jvm_model::{Name, NamedClass, Reason, StubClass};
use program_index::texts::class_text;
use program_model::link_failure::{LinkFailure, refused};
use std::alloc::Global;

/// What is demanded of a supertype.
#[derive(Clone, Copy)]
pub(crate) enum SuperRule {
    /// The class is there.
    There,
    /// It is an interface exactly where it is named as one.
    Kind,
}

/// A supertype that a class names, and where.
#[derive(Clone, Copy)]
pub(crate) struct Super<'a> {
    name: &'a [u8],
    as_interface: bool,
    file: &'a Name,
    offset: u32,
}

/// The class of a name is there.
pub(crate) fn check_there(
    alloc: Global,
    known: &Known,
    name: &[u8],
    file: &Name,
    offset: u32,
) -> Result<(), LinkFailure>
    ensures { TellsClaims known.now (claim file.now offset (is_there name.now) ∷ []) result }
{
    match known.kind_of(name) {
        Some(_) => Ok(()),
        None => Err(refused(alloc, file, offset, Reason::MissingClass)),
    }
}

/// The class of a name, if it is there, is of a kind.
fn check_kind(
    alloc: Global,
    known: &Known,
    as_interface: bool,
    name: &[u8],
    file: &Name,
    offset: u32,
) -> Result<(), LinkFailure>
    ensures { TellsClaims known.now (claim file.now offset (of_kind as_interface name.now) ∷ []) result }
{
    match known.kind_of(name) {
        None => Ok(()),
        Some(is_interface) => {
            if is_interface == as_interface {
                Ok(())
            } else {
                Err(refused(alloc, file, offset, Reason::KindMismatch))
            }
        }
    }
}

/// What is demanded of a supertype.
fn check_super(
    alloc: Global,
    known: &Known,
    rule: SuperRule,
    s: Super<'_>,
) -> Result<(), LinkFailure>
    ensures { TellsClaims known.now (super_claim rule (named_super s.entry) ∷ []) result }
{
    match rule {
        SuperRule::There => check_there(alloc, known, s.name, s.file, s.offset),
        SuperRule::Kind => check_kind(alloc, known, s.as_interface, s.name, s.file, s.offset),
    }
}

/// The superclass of a class file (JVMS 4.1).
fn check_superclass(
    alloc: Global,
    known: &Known,
    rule: SuperRule,
    f: &NamedClass,
) -> Result<(), LinkFailure>
    requires { IsSoundFile f.now }
    ensures { TellsClaims known.now (map (super_claim rule) (map (superclass_place f.now) (option_to_list (class_name_at f.now.class.pool f.now.class.super_class)))) result }
{
    match class_name_at(f.class.pool.as_slice(), f.class.super_class) {
        None => Ok(()),
        Some(name) => {
            let offset = super_class_offset(&f.class);
            let s = Super {
                name,
                as_interface: false,
                file: &f.file,
                offset,
            };
            check_super(alloc, known, rule, s)
        }
    }
}

/// The superinterfaces of a class file, two bytes each (JVMS 4.1).
fn check_interfaces(
    alloc: Global,
    known: &Known,
    rule: SuperRule,
    f: &NamedClass,
) -> Result<(), LinkFailure>
    requires { IsSoundFile f.now }
    ensures { TellsClaims known.now (map (super_claim rule) (interface_places f.now.file f.now.class.pool (interfaces_offset f.now.class) f.now.class.interfaces)) result }
{
    let pool = f.class.pool.as_slice();
    let mut offset = interfaces_offset(&f.class);
    for index in f.class.interfaces.as_slice() {
        let s = Super {
            name: class_text(pool, *index),
            as_interface: true,
            file: &f.file,
            offset,
        };
        check_super(alloc, known, rule, s)?;
        offset += 2;
    }
    Ok(())
}

/// The supertypes of a class file: the superclass first.
fn check_file_supers(
    alloc: Global,
    known: &Known,
    rule: SuperRule,
    f: &NamedClass,
) -> Result<(), LinkFailure>
    requires { IsSoundFile f.now }
    ensures { TellsClaims known.now (map (super_claim rule) (supers_of_file f.now)) result }
{
    check_superclass(alloc, known, rule, f)?;
    check_interfaces(alloc, known, rule, f)
}

/// The supertypes of all class files.
pub(crate) fn check_supers_of_files(
    alloc: Global,
    known: &Known,
    rule: SuperRule,
    files: &[NamedClass],
) -> Result<(), LinkFailure>
    requires { All IsSoundFile files.now }
    ensures { TellsClaims known.now (map (super_claim rule) (flat_map supers_of_file files.now)) result }
{
    for f in files {
        check_file_supers(alloc, known, rule, f)?;
    }
    Ok(())
}

/// The superclass that a stub names.
fn check_stub_superclass(
    alloc: Global,
    known: &Known,
    rule: SuperRule,
    c: &StubClass,
) -> Result<(), LinkFailure>
    ensures { TellsClaims known.now (map (super_claim rule) (stub_superclass c.now)) result }
{
    if c.super_class.is_empty() {
        return Ok(());
    }
    let s = Super {
        name: c.super_class.as_slice(),
        as_interface: false,
        file: &c.file,
        offset: 0,
    };
    check_super(alloc, known, rule, s)
}

/// The superinterfaces that a stub names.
fn check_stub_interfaces(
    alloc: Global,
    known: &Known,
    rule: SuperRule,
    c: &StubClass,
) -> Result<(), LinkFailure>
    ensures { TellsClaims known.now (map (super_claim rule) (stub_interfaces c.now.file c.now.interfaces)) result }
{
    for name in c.interfaces.as_slice() {
        let s = Super {
            name: name.as_slice(),
            as_interface: true,
            file: &c.file,
            offset: 0,
        };
        check_super(alloc, known, rule, s)?;
    }
    Ok(())
}

/// The supertypes of a stub: the superclass first.
pub(crate) fn check_stub_supers(
    alloc: Global,
    known: &Known,
    rule: SuperRule,
    c: &StubClass,
) -> Result<(), LinkFailure>
    ensures { TellsClaims known.now (map (super_claim rule) (supers_of_stub c.now)) result }
{
    check_stub_superclass(alloc, known, rule, c)?;
    check_stub_interfaces(alloc, known, rule, c)
}

/// The supertypes of a stub that is a class of its own.
fn check_own_supers(
    alloc: Global,
    known: &Known,
    rule: SuperRule,
    c: &StubClass,
) -> Result<(), LinkFailure>
    ensures { TellsClaims known.now (of_own (λ s. map (super_claim rule) (supers_of_stub s)) c.now) result }
{
    if c.is_patch {
        return Ok(());
    }
    check_stub_supers(alloc, known, rule, c)
}

/// The supertypes of all stubs that are classes of their own.
pub(crate) fn check_supers_of_stubs(
    alloc: Global,
    known: &Known,
    rule: SuperRule,
    stubs: &[StubClass],
) -> Result<(), LinkFailure>
    ensures { TellsClaims known.now (map (super_claim rule) (flat_map supers_of_stub (own_classes stubs.now))) result }
{
    for c in stubs {
        check_own_supers(alloc, known, rule, c)?;
    }
    Ok(())
}
