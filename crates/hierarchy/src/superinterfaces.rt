//! The search for a method in the superinterfaces of a class, direct or not.

ghost use Rattle.jvm_model.specs.Lookups.{lent_signature};
ghost use Rattle.program_model.specs.Numbers.{name_at, IsClassNumber};
ghost use Rattle.hierarchy.specs.Searches.{Finds, InheritsSuch, IsOffered};

use crate::methods::{is_private, is_static};
use crate::search::declared;
use crate::sought::Sought;
use crate::upward::{Step, first_upward};
use jvm_model::{ClassNo, MethodNo, Signature};
use program_model::program::Program;

/// A method that subtypes inherit from an interface, and that is looked for: it is neither private nor static.
#[derive(Drop)]
struct Inheritable<'a, S> {
    sought: &'a S,
}

impl<S: Sought> Sought for Inheritable<'_, S> {
    ghost use Rattle.hierarchy.specs.Searches.{IsInheritable};

    ghost fits = { λ x. S.fits x.sought.now };

    ghost takes = { λ x p. IsInheritable (S.takes x.sought.now p) };

    fn accepts(&self, program: &Program, method: MethodNo) -> bool {
        if is_private(program, method) {
            return false;
        }
        if is_static(program, method) {
            return false;
        }
        self.sought.accepts(program, method)
    }
}

/// The method of the name and descriptor that an interface declares and its subtypes inherit, if it is looked for.
pub(crate) fn offered<S: Sought>(
    program: &Program,
    interface: ClassNo,
    signature: Signature<'_>,
    sought: &S,
) -> Option<MethodNo>
    requires class { IsClassNumber program.now interface.0 }
    requires fits { S.fits sought.now program.now (lent_signature signature) }
    ensures { Finds (IsOffered program.now (lent_signature signature.entry) (S.takes sought.now program.now) interface.0) result }
{
    if !program.is_interface(interface) {
        return None;
    }
    declared(program, interface, signature, &Inheritable { sought })
}

/// A method of superinterfaces, looked for upward: in those of each class.
#[derive(Drop)]
struct InterfaceSearch<'a, S> {
    signature: Signature<'a>,
    sought: &'a S,
}

impl<S: Sought> Step for InterfaceSearch<'_, S> {
    ghost use Rattle.jvm_model.specs.Lookups.{lent_signature};
    ghost use Rattle.hierarchy.specs.Searches.{Finds, OffersThrough};

    type Answer = MethodNo;

    ghost fits = { λ x p. S.fits x.sought.now p (lent_signature x.signature) };

    ghost answers = { λ x p c. Finds (OffersThrough p (lent_signature x.signature) (S.takes x.sought.now p) c) };

    fn at(&self, program: &Program, class: ClassNo) -> Option<MethodNo> {
        let interfaces = program.through_interfaces(class);
        for number in interfaces {
            let interface = ClassNo(*number);
            if let Some(method) = offered(program, interface, self.signature, self.sought) {
                return Some(method);
            }
        }
        None
    }
}

/// A method of the name and descriptor that the class inherits from a superinterface, and that is looked for. It looks at the
/// interfaces from the class upward, at each as often as a superclass has it above.
pub(crate) fn first_inherited<S: Sought>(
    program: &Program,
    class: ClassNo,
    signature: Signature<'_>,
    sought: &S,
) -> Option<MethodNo>
    requires class { IsClassNumber program.now class.0 }
    requires fits { S.fits sought.now program.now (lent_signature signature) }
    ensures { Finds (InheritsSuch program.now (name_at program.now class.0) (lent_signature signature.entry) (S.takes sought.now program.now)) result }
{
    program.well_formed();
    first_upward(program, class, &InterfaceSearch { signature, sought })
}
