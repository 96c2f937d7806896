//! The target of a special call (JVMS 6.5.invokespecial).

ghost use Rattle.std.specs.Prelude.{◌≡◌, ◌↔◌, codes, Some, slice_get, IsTrue, IfOk, IfSome};
ghost use Rattle.jvm_model.specs.Lookups.{lent_signature};
ghost use Rattle.jvm_model.specs.Programs.{Method};
ghost use Rattle.jvm_model.specs.Selection.{SelectsSpecial, SpecialSelection, StartsSearch};
ghost use Rattle.program_model.specs.Numbers.{name_at, IsClassNumber, IsMethodNumber, method_number};
ghost use Rattle.hierarchy.specs.Searches.{Finds, IsReachedUpward, SelectsInstance};

use crate::defaults::only_default;
use crate::methods::{is_abstract, signature_of};
use crate::search::found_in;
use crate::sought::Instance;
use crate::upward::{Step, first_upward};
use jvm_model::{ClassNo, MethodNo, Reason, Signature};
use program_model::program::Program;

/// Where a special call goes, from the code of a class to a resolved method that is named with a class (JVMS
/// 6.5.invokespecial).
///
/// The error is `NoImplementation` if there is no method, or several, or an abstract one. It takes no memory.
pub fn special_target(
    program: &Program,
    current: ClassNo,
    named: ClassNo,
    resolved: MethodNo,
) -> Result<MethodNo, Reason>
    requires current { IsClassNumber program.now current.0 }
    requires named { IsClassNumber program.now named.0 }
    requires resolved { IsMethodNumber program.now resolved.0 }
    ensures below { IfOk result (λ m. IsMethodNumber program.now m.0) }
    ensures selection { (m : Method) → slice_get program.now.methods resolved.0 ≡ Some m
        → SpecialSelection program.now (name_at program.now current.0) (record { class = name_at program.now named.0; signature = m.signature }) (method_number result) }
{
    let Some(target) = special_search(program, current, named, resolved) else {
        return Err(Reason::NoImplementation);
    };
    if is_abstract(program, target) {
        return Err(Reason::NoImplementation);
    }
    Ok(target)
}

/// The method that the search of a special call finds, abstract or not (JVMS 6.5.invokespecial). It takes no memory.
pub fn special_search(
    program: &Program,
    current: ClassNo,
    named: ClassNo,
    resolved: MethodNo,
) -> Option<MethodNo>
    requires current { IsClassNumber program.now current.0 }
    requires named { IsClassNumber program.now named.0 }
    requires resolved { IsMethodNumber program.now resolved.0 }
    ensures below { IfSome result (λ m. IsMethodNumber program.now m.0) }
    ensures search { (m : Method) → slice_get program.now.methods resolved.0 ≡ Some m
        → Finds (SelectsSpecial program.now (name_at program.now current.0) (record { class = name_at program.now named.0; signature = m.signature })) result }
{
    let signature = signature_of(program, resolved);
    let start = search_start(program, current, named, signature);
    selected_from(program, start, signature)
}

/// The class at which the search begins: at a call of a superclass's method, the superclass of the current class.
fn search_start(
    program: &Program,
    current: ClassNo,
    named: ClassNo,
    signature: Signature<'_>,
) -> ClassNo
    requires current { IsClassNumber program.now current.0 }
    requires named { IsClassNumber program.now named.0 }
    ensures class { IsClassNumber program.now result.0 }
    ensures start { StartsSearch program.now (name_at program.now current.0) (record { class = name_at program.now named.0; signature = lent_signature signature.entry }) (name_at program.now result.0) }
{
    program.well_formed();
    if is_constructor(signature.name) {
        return named;
    }
    if current == named {
        return named;
    }
    if !is_upward(program, current, named) {
        return named;
    }
    match program.super_class(current) {
        Some(above) => above,
        None => named,
    }
}

/// Whether a method of this name is a constructor (JVMS 2.9).
fn is_constructor(name: &[u8]) -> bool
    ensures { IsTrue result ↔ (name.now ≡ codes "<init>") }
{
    name == b"<init>".as_slice()
}

/// A class, looked for upward.
#[derive(Clone, Copy)]
struct Reached {
    upper: ClassNo,
}

impl Step for Reached {
    ghost use Rattle.program_model.specs.Numbers.{name_at, IsClassNumber};
    ghost use Rattle.hierarchy.specs.Searches.{AnswersNamed};

    type Answer = ClassNo;

    ghost fits = { λ x p. IsClassNumber p x.upper.0 };

    ghost answers = { λ x p. AnswersNamed (name_at p x.upper.0) };

    fn at(&self, program: &Program, class: ClassNo) -> Option<ClassNo> {
        program.well_formed();
        if class == self.upper {
            Some(class)
        } else {
            None
        }
    }
}

/// Whether a class is another one, or among the superclasses of it.
fn is_upward(program: &Program, class: ClassNo, upper: ClassNo) -> bool
    requires class { IsClassNumber program.now class.0 }
    requires upper { IsClassNumber program.now upper.0 }
    ensures { IsTrue result ↔ IsReachedUpward program.now (name_at program.now class.0) (name_at program.now upper.0) }
{
    first_upward(program, class, &Reached { upper }).is_some()
}

/// The instance method of the name and descriptor that a search from a class finds, upward or as the only default.
fn selected_from(program: &Program, start: ClassNo, signature: Signature<'_>) -> Option<MethodNo>
    requires { IsClassNumber program.now start.0 }
    ensures { Finds (SelectsInstance program.now (name_at program.now start.0) (lent_signature signature.entry)) result }
{
    program.well_formed();
    if let Some(target) = found_in(program, start, signature, &Instance) {
        return Some(target);
    }
    only_default(program, start, signature)
}
