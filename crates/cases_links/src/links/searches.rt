//! The searches in a linked program, by the names of a query.

ghost use Rattle.std.specs.Prelude.{IfOk};
ghost use Rattle.program_model.specs.Numbers.{IsClassNumber, IsFieldNumber, IsMethodNumber};

use crate::links::query::{FieldReference, MethodReference};
use hierarchy::classes::{find_class, is_subtype};
use hierarchy::resolve::resolve_method;
use hierarchy::resolve_field::resolve_field;
use hierarchy::select::select;
use hierarchy::special::special_target;
use jvm_model::lookup::Signature;
use jvm_model::{ClassNo, FieldNo, MethodNo, Reason};
use program_model::program::Program;
use thiserror::Error;

/// Why a search gives nothing, in the words of its answer.
#[derive(Clone, Copy, Debug, Error)]
pub enum SearchFault<'a> {
    /// The program has no class of this name.
    #[error("no class {0}")]
    NoClass(&'a str),
    /// The search gives a reason.
    #[error("{0}")]
    Reason(Reason),
}

/// The class of a name.
pub fn class_of<'a>(program: &Program, name: &'a str) -> Result<ClassNo, SearchFault<'a>>
    ensures { IfOk result (λ c. IsClassNumber program.now c.0) }
{
    match find_class(program, name.as_bytes()) {
        Some(class) => Ok(class),
        None => Err(SearchFault::NoClass(name)),
    }
}

/// Whether the lower class is a subtype of the upper one.
pub fn is_below<'a>(
    program: &Program,
    lower: &'a str,
    upper: &'a str,
) -> Result<bool, SearchFault<'a>> {
    let lower = class_of(program, lower)?;
    let upper = class_of(program, upper)?;
    Ok(is_subtype(program, lower, upper))
}

/// A name and a descriptor, as bytes.
fn signature_of<'a>(name: &'a str, descriptor: &'a str) -> Signature<'a> {
    Signature {
        name: name.as_bytes(),
        descriptor: descriptor.as_bytes(),
    }
}

/// The method that a reference resolves to.
pub fn resolved<'a>(
    program: &Program,
    reference: &MethodReference<'a>,
) -> Result<MethodNo, SearchFault<'a>>
    ensures { IfOk result (λ m. IsMethodNumber program.now m.0) }
{
    let class = class_of(program, reference.class)?;
    let signature = signature_of(reference.name, reference.descriptor);
    match resolve_method(program, class, reference.interface, signature) {
        Ok(method) => Ok(method),
        Err(reason) => Err(SearchFault::Reason(reason)),
    }
}

/// The field that a reference resolves to.
pub fn resolved_field<'a>(
    program: &Program,
    reference: &FieldReference<'a>,
) -> Result<FieldNo, SearchFault<'a>>
    ensures { IfOk result (λ f. IsFieldNumber program.now f.0) }
{
    let class = class_of(program, reference.class)?;
    let signature = signature_of(reference.name, reference.descriptor);
    match resolve_field(program, class, signature, reference.is_static) {
        Ok(field) => Ok(field),
        Err(reason) => Err(SearchFault::Reason(reason)),
    }
}

/// The method that a call of the resolved one goes to, on an object of a class or an array.
pub fn selected<'a>(
    program: &Program,
    reference: &MethodReference<'a>,
    receiver: &'a str,
) -> Result<MethodNo, SearchFault<'a>>
    ensures { IfOk result (λ m. IsMethodNumber program.now m.0) }
{
    let method = resolved(program, reference)?;
    let class = class_of(program, class_of_object(receiver))?;
    match select(program, method, class, reference.interface) {
        Ok(target) => Ok(target),
        Err(reason) => Err(SearchFault::Reason(reason)),
    }
}

/// The class whose methods an object of a class or an array has: an array has those of java/lang/Object (JVMS 4.10.1.2).
fn class_of_object(name: &str) -> &str {
    if name.starts_with('[') {
        "java/lang/Object"
    } else {
        name
    }
}

/// The method that a special call in the code of a class goes to.
pub fn special<'a>(
    program: &Program,
    current: &'a str,
    reference: &MethodReference<'a>,
) -> Result<MethodNo, SearchFault<'a>>
    ensures { IfOk result (λ m. IsMethodNumber program.now m.0) }
{
    let method = resolved(program, reference)?;
    let current = class_of(program, current)?;
    let named = class_of(program, reference.class)?;
    match special_target(program, current, named, method) {
        Ok(called) => Ok(called),
        Err(reason) => Err(SearchFault::Reason(reason)),
    }
}
