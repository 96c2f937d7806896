//! The search for a method in a class and its superclasses.

ghost use Rattle.std.specs.Prelude.{◌≡◌, Some, slice_get};
ghost use Rattle.jvm_model.specs.Lookups.{lent_signature};
ghost use Rattle.jvm_model.specs.Programs.{Class, object_name};
ghost use Rattle.jvm_model.specs.Resolution.{Declares, IsFound, IsFoundIn, IsPublicWith};
ghost use Rattle.program_model.specs.Numbers.{name_at, IsClassNumber};
ghost use Rattle.hierarchy.specs.Searches.{Finds, IsSuch};

use crate::sought::{PublicInstance, Sought};
use crate::upward::{Step, first_upward};
use jvm_model::{ClassNo, MethodNo, Signature};
use program_model::program::Program;

/// The method of the name and descriptor that a class declares, if it is looked for.
pub(crate) fn declared<S: Sought>(
    program: &Program,
    class: ClassNo,
    signature: Signature<'_>,
    sought: &S,
) -> Option<MethodNo>
    requires class { IsClassNumber program.now class.0 }
    requires fits { S.fits sought.now program.now (lent_signature signature) }
    ensures { Finds (Declares program.now (IsSuch (lent_signature signature.entry) (S.takes sought.now program.now)) (name_at program.now class.0)) result }
{
    program.well_formed();
    let method = program.declared_method(class, signature)?;
    if sought.accepts(program, method) {
        Some(method)
    } else {
        None
    }
}

/// A method of a name and a descriptor, looked for upward.
#[derive(Drop)]
struct MethodSearch<'a, S> {
    signature: Signature<'a>,
    sought: &'a S,
}

impl<S: Sought> Step for MethodSearch<'_, S> {
    ghost use Rattle.jvm_model.specs.Lookups.{lent_signature};
    ghost use Rattle.jvm_model.specs.Resolution.{Declares};
    ghost use Rattle.hierarchy.specs.Searches.{Finds, IsSuch};

    type Answer = MethodNo;

    ghost fits = { λ x p. S.fits x.sought.now p (lent_signature x.signature) };

    ghost answers = { λ x p c. Finds (Declares p (IsSuch (lent_signature x.signature) (S.takes x.sought.now p)) c.name) };

    fn at(&self, program: &Program, class: ClassNo) -> Option<MethodNo> {
        declared(program, class, self.signature, self.sought)
    }
}

/// The first method of the name and descriptor that is looked for, from a class upward through its superclasses (JVMS 5.4.3.3).
pub(crate) fn found_upward<S: Sought>(
    program: &Program,
    class: ClassNo,
    signature: Signature<'_>,
    sought: &S,
) -> Option<MethodNo>
    requires class { IsClassNumber program.now class.0 }
    requires fits { S.fits sought.now program.now (lent_signature signature) }
    ensures { Finds (IsFound program.now (name_at program.now class.0) (IsSuch (lent_signature signature.entry) (S.takes sought.now program.now))) result }
{
    first_upward(program, class, &MethodSearch { signature, sought })
}

/// The method that the search in a class or an interface finds before it looks into superinterfaces: from a class upward; of an
/// interface its own, and failing that a public instance method of java/lang/Object (JVMS 5.4.3.3, 5.4.3.4).
pub(crate) fn found_in<S: Sought>(
    program: &Program,
    class: ClassNo,
    signature: Signature<'_>,
    sought: &S,
) -> Option<MethodNo>
    requires class { IsClassNumber program.now class.0 }
    requires fits { S.fits sought.now program.now (lent_signature signature) }
    ensures { (c : Class) → slice_get program.now.classes class.0 ≡ Some c
        → Finds (IsFoundIn program.now (IsSuch (lent_signature signature.entry) (S.takes sought.now program.now)) (lent_signature signature.entry) c) result }
{
    if !program.is_interface(class) {
        return found_upward(program, class, signature, sought);
    }
    if let Some(method) = declared(program, class, signature, sought) {
        return Some(method);
    }
    of_object(program, signature)
}

/// The public instance method of java/lang/Object.
fn of_object(program: &Program, signature: Signature<'_>) -> Option<MethodNo>
    ensures { Finds (Declares program.now (IsPublicWith (lent_signature signature.entry)) object_name) result }
{
    program.well_formed();
    let object = program.find(b"java/lang/Object")?;
    declared(program, object, signature, &PublicInstance)
}
