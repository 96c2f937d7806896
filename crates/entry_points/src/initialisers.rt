//! The initialisers that the initialisation of a class runs: its own, and those of its supertypes (JVMS 5.5).

ghost use Rattle.std.specs.Prelude.{◌≡◌, ◌↔◌, ℕ, All, Contains, IfNone, IfOk, IfSome, OnOk, Some, slice_get};
ghost use Rattle.jvm_model.specs.Programs.{Class};
ghost use Rattle.jvm_model.specs.declared.number.MethodNo.{MethodNo};
ghost use Rattle.program_model.specs.Numbers.{name_at, IsClassNumber};
ghost use Rattle.machine_nodes.specs.Nodes.{IsCodedInitialiser};
ghost use Rattle.entry_points.specs.Declaring.{AddsMethods, DeclaresCoded, IsDeclaredAt, OneDeclares};

use crate::coded::is_coded;
use hierarchy::upward::{Fold, fold_upward};
use jvm_model::lookup::Signature;
use jvm_model::{ClassNo, MethodNo};
use program_model::program::Program;
use std::alloc::{AllocError, Global};

/// The initialisers of classes upward, each with those of its superinterfaces.
#[derive(Clone, Copy)]
struct Initialisers;

impl Fold for Initialisers {
    ghost use Rattle.std.specs.Prelude.{IfOk};
    ghost use Rattle.entry_points.specs.Declaring.{AddsDeclared};

    type Value = Result<Vec<MethodNo>, AllocError>;

    ghost makes = { λ x p c before now. IfOk now (AddsDeclared p c before) };

    fn at(
        &self,
        program: &Program,
        class: ClassNo,
        value: Result<Vec<MethodNo>, AllocError>,
    ) -> Result<Vec<MethodNo>, AllocError> {
        let mut found = value?;
        add_at(program, class, &mut found)?;
        Ok(found)
    }
}

/// The initialisers of a class and of its supertypes for which class files have code. One of a supertype that is reached in several
/// ways may stand there several times. It walks up the superclasses.
pub fn coded_initialisers(
    alloc: Global,
    program: &Program,
    class: ClassNo,
) -> Result<Vec<MethodNo>, AllocError>
    requires { IsClassNumber program.now class.0 }
    ensures { IfOk result (λ found. (i : MethodNo) → Contains found.items i ↔ IsCodedInitialiser program.now (name_at program.now class.0) i.0) }
{
    program.well_formed();
    fold_upward(program, class, &Initialisers, Ok(Vec::new(alloc)))
}

/// Adds the initialisers of a class and of its supertypes through its own superinterfaces.
fn add_at(program: &Program, class: ClassNo, found: &mut Vec<MethodNo>) -> Result<(), AllocError>
    requires { IsClassNumber program.now class.0 }
    ensures { (c : Class) → slice_get program.now.classes class.0 ≡ Some c → OnOk result (AddsMethods (IsDeclaredAt program.now c) found.old.items found.new.items) }
{
    add_declared(program, class, found)?;
    add_each(program, program.through_interfaces(class), found)
}

/// Adds the initialisers that these classes themselves declare.
fn add_each(program: &Program, classes: &[u32], found: &mut Vec<MethodNo>) -> Result<(), AllocError>
    requires { All (IsClassNumber program.now) classes.now }
    ensures { OnOk result (AddsMethods (OneDeclares program.now classes.now) found.old.items found.new.items) }
{
    for number in classes {
        add_declared(program, ClassNo(*number), found)?;
    }
    Ok(())
}

/// Adds the initialiser that a class itself declares, if there is one.
fn add_declared(
    program: &Program,
    class: ClassNo,
    found: &mut Vec<MethodNo>,
) -> Result<(), AllocError>
    requires { IsClassNumber program.now class.0 }
    ensures { OnOk result (AddsMethods (DeclaresCoded program.now (name_at program.now class.0)) found.old.items found.new.items) }
{
    program.well_formed();
    if let Some(initialiser) = initialiser_of(program, class) {
        found.push(initialiser)?;
    }
    Ok(())
}

/// The initialiser that a class itself declares, where its class file has code for it.
fn initialiser_of(program: &Program, class: ClassNo) -> Option<MethodNo>
    requires { IsClassNumber program.now class.0 }
    ensures found { IfSome result (λ number. DeclaresCoded program.now (name_at program.now class.0) number.0) }
    ensures none { IfNone result ((number : ℕ) → DeclaresCoded program.now (name_at program.now class.0) number → ⊥) }
{
    program.well_formed();
    let signature = Signature {
        name: b"<clinit>",
        descriptor: b"()V",
    };
    let Some(method) = program.declared_method(class, signature) else {
        return None;
    };
    if is_coded(program, method) {
        Some(method)
    } else {
        None
    }
}
