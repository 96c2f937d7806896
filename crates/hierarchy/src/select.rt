//! The method that a call on an object goes to (JVMS 5.4.5, 6.5.invokevirtual, 6.5.invokeinterface).

ghost use Rattle.std.specs.Prelude.{◌≡◌, ◌↔◌, Some, slice_get, IsTrue, IfOk};
ghost use Rattle.jvm_model.specs.Lookups.{lent_signature};
ghost use Rattle.jvm_model.specs.Programs.{Method};
ghost use Rattle.jvm_model.specs.Selection.{Selection, IsPackageOverridden, IsPackagePrivate, is_direct};
ghost use Rattle.program_model.specs.Numbers.{name_at, IsClassNumber, IsMethodNumber, method_number};
ghost use Rattle.hierarchy.specs.Searches.{IsChosen, IsHidden, Hides};

use crate::choice::Choice;
use crate::defaults::find_defaults;
use crate::methods::{class_of, is_abstract, is_private, signature_of};
use crate::overriding::Selectable;
use crate::package::is_same_package;
use crate::search::found_upward;
use crate::upward::{Step, first_upward};
use jvm_model::{AccessFlag, ClassNo, MethodNo, Reason, Signature};
use program_model::program::Program;

/// Where a call of a resolved method on an object of a class goes, at a call of an interface's method or of any other one
/// (JVMS 6.5.invokevirtual, 6.5.invokeinterface).
///
/// The error is `NoImplementation` if there is no method, or an abstract one; `ClashingDefaults` if several methods of
/// superinterfaces could be called; and `PackageOverride` if the resolved method is visible in its package alone and a method of
/// another package has its name and descriptor. It takes no memory.
pub fn select(
    program: &Program,
    resolved: MethodNo,
    receiver: ClassNo,
    interface: bool,
) -> Result<MethodNo, Reason>
    requires resolved { IsMethodNumber program.now resolved.0 }
    requires receiver { IsClassNumber program.now receiver.0 }
    ensures below { IfOk result (λ m. IsMethodNumber program.now m.0) }
    ensures selection { Selection program.now interface (name_at program.now receiver.0) resolved.0 (method_number result) }
{
    program.well_formed();
    match chosen(program, resolved, receiver, interface) {
        Choice::Nothing => Err(Reason::NoImplementation),
        Choice::Several => Err(Reason::ClashingDefaults),
        Choice::One(target) => {
            if is_abstract(program, target) {
                return Err(Reason::NoImplementation);
            }
            if is_package_overridden(program, receiver, resolved) {
                return Err(Reason::PackageOverride);
            }
            Ok(target)
        }
    }
}

/// The method that is selected, whether it is abstract or not.
fn chosen(program: &Program, resolved: MethodNo, receiver: ClassNo, interface: bool) -> Choice
    requires resolved { IsMethodNumber program.now resolved.0 }
    requires receiver { IsClassNumber program.now receiver.0 }
    ensures { IsChosen program.now interface (name_at program.now receiver.0) resolved.0 result }
{
    if is_direct(program, resolved, interface) {
        return Choice::One(resolved);
    }
    let signature = signature_of(program, resolved);
    let selectable = Selectable {
        interface,
        resolved,
    };
    if let Some(target) = found_upward(program, receiver, signature, &selectable) {
        return Choice::One(target);
    }
    find_defaults(program, receiver, signature)
}

/// Whether the resolved method is private, and the call is none of an interface's method.
fn is_direct(program: &Program, resolved: MethodNo, interface: bool) -> bool
    requires { IsMethodNumber program.now resolved.0 }
    ensures { (m : Method) → slice_get program.now.methods resolved.0 ≡ Some m → result ≡ is_direct interface m }
{
    if interface {
        return false;
    }
    is_private(program, resolved)
}

/// Whether a method that is visible in its package alone has, from the class upward to below its own, a method of its name and
/// descriptor in another package.
fn is_package_overridden(program: &Program, class: ClassNo, resolved: MethodNo) -> bool
    requires class { IsClassNumber program.now class.0 }
    requires resolved { IsMethodNumber program.now resolved.0 }
    ensures { IsTrue result ↔ IsPackageOverridden program.now (name_at program.now class.0) resolved.0 }
{
    if !is_package_private(program, resolved) {
        return false;
    }
    is_hidden(
        program,
        class,
        class_of(program, resolved),
        signature_of(program, resolved),
    )
}

/// Whether a method has no flag of access.
fn is_package_private(program: &Program, method: MethodNo) -> bool
    requires { IsMethodNumber program.now method.0 }
    ensures { (m : Method) → slice_get program.now.methods method.0 ≡ Some m → IsTrue result ↔ IsPackagePrivate m }
{
    let flags = program.method(method).flags;
    if AccessFlag::Public.is_set_in(flags) {
        return false;
    }
    if AccessFlag::Protected.is_set_in(flags) {
        return false;
    }
    !AccessFlag::Private.is_set_in(flags)
}

/// A class that hides a method of the owner, looked for upward to below the owner.
#[derive(Clone, Copy)]
struct Hiding<'a> {
    owner: ClassNo,
    signature: Signature<'a>,
}

impl Step for Hiding<'_> {
    ghost use Rattle.jvm_model.specs.Lookups.{lent_signature};
    ghost use Rattle.program_model.specs.Numbers.{name_at, IsClassNumber};
    ghost use Rattle.hierarchy.specs.Searches.{AnswersHidden};

    type Answer = bool;

    ghost fits = { λ x p. IsClassNumber p x.owner.0 };

    ghost answers = { λ x p. AnswersHidden p (name_at p x.owner.0) (lent_signature x.signature) };

    fn at(&self, program: &Program, class: ClassNo) -> Option<bool> {
        program.well_formed();
        if class == self.owner {
            return Some(false);
        }
        if hides(program, class, self.owner, self.signature) {
            return Some(true);
        }
        None
    }
}

/// Whether, from the class upward to below another one, a class in another package than that one has a method of the name and
/// descriptor.
fn is_hidden(program: &Program, class: ClassNo, owner: ClassNo, signature: Signature<'_>) -> bool
    requires class { IsClassNumber program.now class.0 }
    requires owner { IsClassNumber program.now owner.0 }
    ensures { IsTrue result ↔ IsHidden program.now (name_at program.now class.0) (name_at program.now owner.0) (lent_signature signature.entry) }
{
    first_upward(program, class, &Hiding { owner, signature }).unwrap_or(false)
}

/// Whether a class in another package than the owner has a method of the name and descriptor.
fn hides(program: &Program, class: ClassNo, owner: ClassNo, signature: Signature<'_>) -> bool
    requires class { IsClassNumber program.now class.0 }
    requires owner { IsClassNumber program.now owner.0 }
    ensures { IsTrue result ↔ Hides program.now (name_at program.now owner.0) (lent_signature signature.entry) (name_at program.now class.0) }
{
    program.declared_method(class, signature).is_some()
        && !is_same_package(program.class_name(class), program.class_name(owner))
}
