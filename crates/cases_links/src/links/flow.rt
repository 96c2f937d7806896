//! The answers on flow graphs.

ghost use Rattle.std.specs.Prelude.{◌≡◌, ◌<◌, ◌^◌, length, IsTrue};
ghost use Rattle.std.specs.List.{list_any};
ghost use Rattle.jvm_model.specs.Layout.{HasCodeAttribute};
ghost use Rattle.jvm_model.specs.Soundness.{is_code, IsSoundClass};
ghost use Rattle.jvm_model.specs.Spelling.{spell};

use crate::links::query::FileMethod;
use cases_files::{CaseFailure, read_file};
use code_reader::read_code;
use failure::Failure;
use flow_graph::{Graph, graph};
use jvm_model::layout::is_code;
use jvm_model::lookup::text_at;
use jvm_model::{Attribute, ClassFile, Fault, Member, PoolEntry, ReadFailure, reason_word};
use std::alloc::{AllocError, Global};
use ts_outside::Tree;

/// The instructions of a method that are reached, each by its offset and the height of the operand stack before it; or why its
/// code is refused.
pub fn graph_text<T: Tree>(
    alloc: Global,
    tree: &mut T,
    method: &FileMethod<'_>,
) -> Result<String, CaseFailure> {
    let file = String::from_str(alloc, method.file)?;
    let named = read_file(alloc, tree, file)?;
    method_text(alloc, &named.class, method)
}

/// What is printed of a method of a class.
fn method_text(
    alloc: Global,
    class: &ClassFile,
    method: &FileMethod<'_>,
) -> Result<String, CaseFailure>
    requires sound { IsSoundClass class.now }
    requires size { length (spell class.now) < 2 ^ 32 }
{
    match place_of(class, method) {
        Some(place) if has_code(class, place) => Ok(code_text(alloc, class, method.file, place)?),
        Some(_) => text(alloc, "no code"),
        None => text(alloc, "no method"),
    }
}

/// An answer.
pub fn text(alloc: Global, words: &str) -> Result<String, CaseFailure> {
    Ok(String::from_str(alloc, words)?)
}

/// The place of a method among those of its class.
fn place_of(class: &ClassFile, method: &FileMethod<'_>) -> Option<usize> {
    let pool = class.pool.as_slice();
    for (place, member) in class.methods.as_slice().iter().enumerate() {
        if is_named(pool, member, method) {
            return Some(place);
        }
    }
    None
}

/// Whether a member has the name and the descriptor of a method.
fn is_named(pool: &[PoolEntry], member: &Member, method: &FileMethod<'_>) -> bool {
    let (Some(name), Some(descriptor)) = (
        text_at(pool, member.name),
        text_at(pool, member.descriptor),
    ) else {
        return false;
    };
    name == method.name.as_bytes() && descriptor == method.descriptor.as_bytes()
}

/// What is printed of the method at a place, which has code.
fn code_text(
    alloc: Global,
    class: &ClassFile,
    file: &str,
    place: usize,
) -> Result<String, AllocError>
    requires sound { IsSoundClass class.now }
    requires size { length (spell class.now) < 2 ^ 32 }
    requires code { HasCodeAttribute class.now place }
{
    match graph_of(alloc, class, place) {
        Ok(graph) => heights(alloc, &graph),
        Err(Failure::Cause(Fault { offset, reason })) => {
            let word = reason_word(reason);
            format!(in alloc; "refused {file} {offset} {word}")
        }
        Err(Failure::OutOfMemory) => Err(AllocError),
    }
}

/// Whether the method at a place has code.
fn has_code(class: &ClassFile, place: usize) -> bool
    ensures { IsTrue result → HasCodeAttribute class.now place }
{
    match class.methods.as_slice().get(place) {
        Some(method) => any_code(class.pool.as_slice(), method.attributes.as_slice()),
        None => false,
    }
}

/// Whether one of the attributes is named Code.
fn any_code(pool: &[PoolEntry], attributes: &[Attribute]) -> bool
    ensures { result ≡ list_any (is_code pool.now) attributes.now }
{
    attributes.iter().any(|attribute| is_code(pool, attribute))
}

/// The flow graph of the method at a place.
fn graph_of(alloc: Global, class: &ClassFile, place: usize) -> Result<Graph, ReadFailure>
    requires sound { IsSoundClass class.now }
    requires size { length (spell class.now) < 2 ^ 32 }
    requires code { HasCodeAttribute class.now place }
{
    let code = read_code(alloc, class, place)?;
    graph(alloc, class, &code)
}

/// The steps of a graph, each by its offset and its height.
fn heights(alloc: Global, graph: &Graph) -> Result<String, AllocError> {
    let mut text = String::new(alloc);
    write_heights(&mut text, graph)?;
    Ok(text)
}

/// Writes the steps of a graph.
fn write_heights(text: &mut String, graph: &Graph) -> Result<(), AllocError> {
    let mut between = "";
    for step in graph.steps.as_slice() {
        let offset = step.offset;
        let height = step.height;
        write!(text, "{between}{offset}@{height}")?;
        between = " ";
    }
    Ok(())
}
