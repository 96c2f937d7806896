//! Resolution of references to fields (JVMS 5.4.3.2).

ghost use Rattle.std.specs.Prelude.{◌≡◌, Some, slice_get, IfOk, IfSome};
ghost use Rattle.jvm_model.specs.Access.{has_flag};
ghost use Rattle.jvm_model.specs.Lookups.{lent_signature};
ghost use Rattle.jvm_model.specs.Programs.{Class, Field};
ghost use Rattle.jvm_model.specs.Resolution.{FieldResolution, FindsField};
ghost use Rattle.jvm_model.specs.declared.access.AccessFlag.TheVariants.{Static};
ghost use Rattle.program_model.specs.Numbers.{name_at, IsClassNumber, IsFieldNumber, field_number};
ghost use Rattle.hierarchy.specs.Searches.{plain_field};

use crate::classes::missing_member;
use crate::upward::{Step, first_upward};
use jvm_model::{AccessFlag, ClassNo, FieldNo, Reason, Signature};
use program_model::program::Program;

/// What a reference to a static field, or to an instance field, gives that names a class (JVMS 5.4.3.2).
///
/// The error is `KindMismatch` if there is a field and it is not of that kind. If there is none, it is `MissingField` for a class
/// of the folder, and `NoStub` for another one. It takes no memory.
pub fn resolve_field(
    program: &Program,
    class: ClassNo,
    signature: Signature<'_>,
    is_static: bool,
) -> Result<FieldNo, Reason>
    requires { IsClassNumber program.now class.0 }
    ensures below { IfOk result (λ f. IsFieldNumber program.now f.0) }
    ensures resolution { (c : Class) → slice_get program.now.classes class.0 ≡ Some c
        → FieldResolution program.now c (lent_signature signature.entry) is_static (field_number result) }
{
    let Some(field) = found_field(program, class, signature) else {
        return Err(missing_member(program, class, Reason::MissingField));
    };
    if is_static_field(program, field) == is_static {
        Ok(field)
    } else {
        Err(Reason::KindMismatch)
    }
}

/// Whether a field is static.
fn is_static_field(program: &Program, field: FieldNo) -> bool
    requires { IsFieldNumber program.now field.0 }
    ensures { (f : Field) → slice_get program.now.fields field.0 ≡ Some f → result ≡ has_flag f.flags Static }
{
    AccessFlag::Static.is_set_in(program.field(field).flags)
}

/// A field of a name and a descriptor, looked for upward: in each class, and then in its superinterfaces.
#[derive(Clone, Copy)]
struct FieldSearch<'a> {
    signature: Signature<'a>,
}

impl Step for FieldSearch<'_> {
    ghost use Rattle.jvm_model.specs.Lookups.{lent_signature};
    ghost use Rattle.hierarchy.specs.Searches.{FindsBelow};

    type Answer = FieldNo;

    ghost fits = { λ x p. Unit {0} };

    ghost answers = { λ x p. FindsBelow p (lent_signature x.signature) };

    fn at(&self, program: &Program, class: ClassNo) -> Option<FieldNo> {
        if let Some(field) = program.declared_field(class, self.signature) {
            return Some(field);
        }
        let interfaces = program.through_interfaces(class);
        for number in interfaces {
            let interface = ClassNo(*number);
            if let Some(field) = program.declared_field(interface, self.signature) {
                return Some(field);
            }
        }
        None
    }
}

/// The field that the search from a class finds.
fn found_field(program: &Program, class: ClassNo, signature: Signature<'_>) -> Option<FieldNo>
    requires { IsClassNumber program.now class.0 }
    ensures finds { FindsField program.now (lent_signature signature.entry) (name_at program.now class.0) (plain_field result) }
    ensures within { IfSome result (λ f. IsFieldNumber program.now f.0) }
{
    first_upward(program, class, &FieldSearch { signature })
}
