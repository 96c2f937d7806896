//! Queries: what is asked of the program of a case, or of one of its class files.

use std::alloc::{AllocError, Global};

/// A reference to a method: the class that it names, whether it takes the class for an interface, and the method's name and
/// descriptor (JVMS 4.4.2).
#[derive(Clone, Copy)]
pub struct MethodReference<'a> {
    pub class: &'a str,
    pub interface: bool,
    pub name: &'a str,
    pub descriptor: &'a str,
}

/// A reference to a field, as an instruction for static fields uses it, or one for instance fields (JVMS 4.4.2).
#[derive(Clone, Copy)]
pub struct FieldReference<'a> {
    pub class: &'a str,
    pub is_static: bool,
    pub name: &'a str,
    pub descriptor: &'a str,
}

/// A method of a class file.
#[derive(Clone, Copy)]
pub struct FileMethod<'a> {
    pub file: &'a str,
    pub name: &'a str,
    pub descriptor: &'a str,
}

/// What is asked of a program.
#[derive(Clone, Copy)]
pub enum Search<'a> {
    /// Whether there is a class of the name.
    Find(&'a str),
    /// Whether the first class is a subtype of the second one (JVMS 4.10.1.2).
    Subtype(&'a str, &'a str),
    /// Whether an object of the second class or array may be cast to the first one (5.5, 6.5.checkcast).
    Cast(&'a str, &'a str),
    /// The method that a reference resolves to (5.4.3.3, 5.4.3.4).
    Method(MethodReference<'a>),
    /// What stands for the method that a reference resolves to.
    Body(MethodReference<'a>),
    /// The field that a reference resolves to (5.4.3.2).
    Field(FieldReference<'a>),
    /// The method that a call goes to on an object of the class or the array (6.5.invokevirtual, 6.5.invokeinterface).
    Select(MethodReference<'a>, &'a str),
    /// The method that a special call in the code of the class goes to (6.5.invokespecial).
    Special(&'a str, MethodReference<'a>),
}

/// What is asked.
#[derive(Clone, Copy)]
pub enum Query<'a> {
    /// A search in the program.
    OfProgram(Search<'a>),
    /// The flow graph of a method of a class file.
    Graph(FileMethod<'a>),
}

/// The query of a line; `None` if it asks nothing that is known.
pub fn query_of<'a>(alloc: Global, line: &'a str) -> Result<Option<Query<'a>>, AllocError> {
    let words: Vec<&'a str> = line.split(' ').collect(alloc)?;
    Ok(query_in(words.as_slice()))
}

/// The query that some words ask: the first one says what for.
fn query_in<'a>(words: &[&'a str]) -> Option<Query<'a>> {
    let [form, words @ ..] = words else {
        return None;
    };
    match *form {
        "graph" => Some(Query::Graph(file_method(words)?)),
        other => Some(Query::OfProgram(search_in(other, words)?)),
    }
}

/// The method of a class file that some words spell.
fn file_method<'a>(words: &[&'a str]) -> Option<FileMethod<'a>> {
    let [file, name, descriptor] = words else {
        return None;
    };
    Some(FileMethod {
        file,
        name,
        descriptor,
    })
}

/// The search of a form that some words spell.
fn search_in<'a>(form: &str, words: &[&'a str]) -> Option<Search<'a>> {
    match form {
        "find" | "subtype" | "cast" => search_by_names(form, words),
        "method" => Some(Search::Method(method_reference(words)?)),
        "body" => Some(Search::Body(method_reference(words)?)),
        "field" => Some(Search::Field(field_reference(words)?)),
        "select" => selection(words),
        "special" => special_call(words),
        _ => None,
    }
}

/// The search by the names of classes that some words spell.
fn search_by_names<'a>(form: &str, words: &[&'a str]) -> Option<Search<'a>> {
    match (form, words) {
        ("find", [name]) => Some(Search::Find(name)),
        ("subtype", [lower, upper]) => Some(Search::Subtype(lower, upper)),
        ("cast", [upper, lower]) => Some(Search::Cast(upper, lower)),
        _ => None,
    }
}

/// The search for the method that a call goes to on an object of a class or an array.
fn selection<'a>(words: &[&'a str]) -> Option<Search<'a>> {
    let [reference @ .., receiver] = words else {
        return None;
    };
    let reference = method_reference(reference)?;
    Some(Search::Select(reference, receiver))
}

/// The search for the method that a special call in the code of a class goes to.
fn special_call<'a>(words: &[&'a str]) -> Option<Search<'a>> {
    let [current, reference @ ..] = words else {
        return None;
    };
    let reference = method_reference(reference)?;
    Some(Search::Special(current, reference))
}

/// The reference to a method that some words spell: the class, its kind, the name and the descriptor.
fn method_reference<'a>(words: &[&'a str]) -> Option<MethodReference<'a>> {
    let [class, kind, name, descriptor] = words else {
        return None;
    };
    Some(MethodReference {
        class,
        interface: is_second(kind, "class", "interface")?,
        name,
        descriptor,
    })
}

/// The reference to a field that some words spell: the class, the kind of the field, its name and its descriptor.
fn field_reference<'a>(words: &[&'a str]) -> Option<FieldReference<'a>> {
    let [class, kind, name, descriptor] = words else {
        return None;
    };
    Some(FieldReference {
        class,
        is_static: is_second(kind, "instance", "static")?,
        name,
        descriptor,
    })
}

/// Whether a word is the second one of two; `None` for a word that is neither.
fn is_second(word: &str, first: &str, second: &str) -> Option<bool> {
    if word == second {
        Some(true)
    } else if word == first {
        Some(false)
    } else {
        None
    }
}
