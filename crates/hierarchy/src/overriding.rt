//! Overriding (JVMS 5.4.5): which methods a call of a resolved method may go to.

ghost use Rattle.std.specs.Prelude.{◌≡◌, ◌↔◌, ◌⊎◌, Some, slice_get, IsTrue};
ghost use Rattle.jvm_model.specs.Programs.{Method};
ghost use Rattle.jvm_model.specs.Selection.{Overrides, IsOverridable};
ghost use Rattle.program_model.specs.Numbers.{name_at, IsClassNumber, IsMethodNumber};

use crate::classes::is_proper_subtype;
use crate::methods::{class_of, is_private, is_static};
use crate::package::is_same_package;
use crate::sought::Sought;
use jvm_model::{AccessFlag, ClassNo, MethodNo};
use program_model::program::Program;

/// An instance method that a call of the resolved one may go to: at a call of an interface's method each one of its name and
/// descriptor, and else the resolved one and those that override it.
#[derive(Clone, Copy)]
pub(crate) struct Selectable {
    pub interface: bool,
    pub resolved: MethodNo,
}

impl Sought for Selectable {
    ghost use Rattle.jvm_model.specs.Selection.{IsSelectable};
    ghost use Rattle.hierarchy.specs.Searches.{HasOwnSignature};

    ghost fits = { λ x p s. HasOwnSignature p s x.resolved.0 };

    ghost takes = { λ x p n m. (r : Method) → slice_get p.methods x.resolved.0 ≡ Some r → IsSelectable p x.interface x.resolved.0 r n m };

    fn accepts(&self, program: &Program, method: MethodNo) -> bool {
        if is_static(program, method) {
            return false;
        }
        self.interface || is_target(program, self.resolved, method)
    }
}

/// Whether a method of the name and descriptor of a resolved one is that one, or overrides it.
fn is_target(program: &Program, resolved: MethodNo, method: MethodNo) -> bool
    requires method { IsMethodNumber program.now method.0 }
    requires resolved { IsMethodNumber program.now resolved.0 }
    ensures { (m r : Method) → slice_get program.now.methods method.0 ≡ Some m → slice_get program.now.methods resolved.0 ≡ Some r
        → m.signature ≡ r.signature → IsTrue result ↔ ((method.0 ≡ resolved.0) ⊎ Overrides program.now m r) }
{
    method == resolved || overrides(program, method, resolved)
}

/// Whether a method overrides another one of the same name and descriptor (JVMS 5.4.5).
fn overrides(program: &Program, method: MethodNo, other: MethodNo) -> bool
    requires method { IsMethodNumber program.now method.0 }
    requires other { IsMethodNumber program.now other.0 }
    ensures { (m o : Method) → slice_get program.now.methods method.0 ≡ Some m → slice_get program.now.methods other.0 ≡ Some o
        → m.signature ≡ o.signature → IsTrue result ↔ Overrides program.now m o }
{
    if is_private(program, method) {
        return false;
    }
    let class = class_of(program, method);
    if !is_proper_subtype(program, class, class_of(program, other)) {
        return false;
    }
    is_overridable(program, other, class)
}

/// Whether a method may be overridden in a class (JVMS 5.4.5).
fn is_overridable(program: &Program, method: MethodNo, class: ClassNo) -> bool
    requires method { IsMethodNumber program.now method.0 }
    requires class { IsClassNumber program.now class.0 }
    ensures { (m : Method) → slice_get program.now.methods method.0 ≡ Some m → IsTrue result ↔ IsOverridable m (name_at program.now class.0) }
{
    let flags = program.method(method).flags;
    if AccessFlag::Public.is_set_in(flags) {
        return true;
    }
    if AccessFlag::Protected.is_set_in(flags) {
        return true;
    }
    if AccessFlag::Private.is_set_in(flags) {
        return false;
    }
    let owner = class_of(program, method);
    is_same_package(program.class_name(owner), program.class_name(class))
}
