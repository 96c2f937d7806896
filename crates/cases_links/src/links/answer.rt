//! The answers of a linked program, as text.

ghost use Rattle.program_model.specs.Numbers.{IsFieldNumber, IsMethodNumber};

use crate::links::query::Search;
use crate::links::searches::{
    SearchFault, class_of, is_below, resolved, resolved_field, selected, special,
};
use cases_files::shown;
use hierarchy::fits;
use jvm_model::{FieldNo, MethodNo};
use program_model::method_body::MethodBody;
use program_model::program::Program;
use std::alloc::{AllocError, Global};

/// What a search finds.
#[derive(Clone, Copy)]
enum Found<'p> {
    /// Whether it is so.
    Truth(bool),
    /// A method.
    Method {
        class: &'p str,
        name: &'p str,
        descriptor: &'p str,
    },
    /// The class that declares a method or a field.
    Owner(&'p str),
    /// The method of a class file that has this number there.
    InFile {
        file: &'p str,
        number: usize,
    },
    /// A method that a stub describes; the file is that of its class.
    Described {
        file: &'p str,
    },
}

/// The answer of a program: `yes` or `no`; of a resolution of a method the method; of a body what stands for the method; of another
/// search the class that declares what is found; or why nothing is found.
pub fn answer(alloc: Global, program: &Program, search: &Search<'_>) -> Result<String, AllocError> {
    match looked_up(program, search) {
        Ok(found) => told(alloc, found),
        Err(fault) => format!(in alloc; "{fault}"),
    }
}

/// What is found, as text.
fn told(alloc: Global, found: Found<'_>) -> Result<String, AllocError> {
    match found {
        Found::Truth(true) => String::from_str(alloc, "yes"),
        Found::Truth(false) => String::from_str(alloc, "no"),
        Found::Method {
            class,
            name,
            descriptor,
        } => format!(in alloc; "{class}.{name} {descriptor}"),
        Found::Owner(class) => String::from_str(alloc, class),
        Found::InFile { file, number } => format!(in alloc; "{file} method {number}"),
        Found::Described { file } => format!(in alloc; "{file} described"),
    }
}

/// What a search finds in a program.
fn looked_up<'a>(program: &'a Program, search: &Search<'a>) -> Result<Found<'a>, SearchFault<'a>> {
    match search {
        Search::Find(name) => Ok(Found::Truth(class_of(program, name).is_ok())),
        Search::Subtype(lower, upper) => Ok(Found::Truth(is_below(program, lower, upper)?)),
        Search::Cast(upper, lower) => Ok(Found::Truth(fits(
            program,
            upper.as_bytes(),
            lower.as_bytes(),
        ))),
        Search::Method(reference) => Ok(full_name(program, resolved(program, reference)?)),
        Search::Body(reference) => Ok(source_of(program, resolved(program, reference)?)),
        Search::Field(reference) => Ok(owner_of_field(
            program,
            resolved_field(program, reference)?,
        )),
        Search::Select(reference, receiver) => {
            Ok(owner_of_method(program, selected(program, reference, receiver)?))
        }
        Search::Special(current, reference) => {
            Ok(owner_of_method(program, special(program, current, reference)?))
        }
    }
}

/// The class, the name and the descriptor of a method.
fn full_name(program: &Program, method: MethodNo) -> Found<'_>
    requires { IsMethodNumber program.now method.0 }
{
    let view = program.method(method);
    Found::Method {
        class: shown(program.class_name(view.class)),
        name: shown(view.signature.name),
        descriptor: shown(view.signature.descriptor),
    }
}

/// The class that declares a method.
fn owner_of_method(program: &Program, method: MethodNo) -> Found<'_>
    requires { IsMethodNumber program.now method.0 }
{
    let class = program.class_name(program.method(method).class);
    Found::Owner(shown(class))
}

/// The class that declares a field.
fn owner_of_field(program: &Program, field: FieldNo) -> Found<'_>
    requires { IsFieldNumber program.now field.0 }
{
    let class = program.class_name(program.field(field).class);
    Found::Owner(shown(class))
}

/// What stands for a method: its number in the file of its class, or that a stub describes it.
fn source_of(program: &Program, method: MethodNo) -> Found<'_>
    requires { IsMethodNumber program.now method.0 }
{
    let file = program.file_name(program.method(method).class).as_str();
    match program.method_body(method) {
        MethodBody::InFile { number, .. } => Found::InFile { file, number },
        MethodBody::Described(_) => Found::Described { file },
    }
}
