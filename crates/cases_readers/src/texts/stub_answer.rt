//! Stubs that were read, as text.

use crate::texts::words::{tell_bytes, tell_names};
use jvm_model::{StubArgument, StubClass, StubField, StubMethod, StubResult};
use std::alloc::{AllocError, Global};

/// How many classes there are, and the lines of each.
pub fn told_stubs(alloc: Global, classes: &[StubClass]) -> Result<String, AllocError> {
    let mut text = format!(in alloc; "{} classes", classes.len())?;
    for class in classes {
        tell_class(&mut text, class)?;
    }
    Ok(text)
}

/// Adds the lines of a class: of itself, of its methods and of its fields.
fn tell_class(text: &mut String, class: &StubClass) -> Result<(), AllocError> {
    tell_head(text, class)?;
    for method in class.methods.as_slice() {
        tell_method(text, method)?;
    }
    for field in class.fields.as_slice() {
        tell_field(text, field)?;
    }
    Ok(())
}

/// Adds the line of a class itself: what it is, its name, its supertypes, and its file.
fn tell_head(text: &mut String, class: &StubClass) -> Result<(), AllocError> {
    text.push_str("\n  ")?;
    if class.is_patch {
        text.push_str("patch ")?;
    }
    text.push_str(if class.is_interface {
        "interface "
    } else {
        "class "
    })?;
    tell_bytes(text, class.name.as_slice())?;
    if !class.super_class.is_empty() {
        text.push_str(" extends ")?;
        tell_bytes(text, class.super_class.as_slice())?;
    }
    tell_names(text, " implements", class.interfaces.as_slice())?;
    write!(text, " in {}", class.file.as_str())
}

/// Adds the line of a method: what it is, its name and descriptor, its results, its exceptions, and what it keeps.
fn tell_method(text: &mut String, method: &StubMethod) -> Result<(), AllocError> {
    text.push_str("\n    ")?;
    if method.is_static {
        text.push_str("static ")?;
    }
    if method.is_abstract {
        text.push_str("abstract ")?;
    }
    tell_bytes(text, method.name.as_slice())?;
    tell_bytes(text, method.descriptor.as_slice())?;
    for outcome in method.returns.as_slice() {
        tell_outcome(text, outcome)?;
    }
    tell_names(text, " throws", method.throws.as_slice())?;
    if !method.keeps.is_empty() {
        text.push_str(" keeps")?;
    }
    for argument in method.keeps.as_slice() {
        tell_argument(text, *argument)?;
    }
    Ok(())
}

/// Adds a result, in the word of a stub file.
fn tell_outcome(text: &mut String, outcome: &StubResult) -> Result<(), AllocError> {
    match outcome {
        StubResult::Primitive => text.push_str(" prim"),
        StubResult::Void => text.push_str(" void"),
        StubResult::Null => text.push_str(" null"),
        StubResult::Given(argument) => tell_argument(text, *argument),
        StubResult::New(class) => {
            text.push_str(" new:")?;
            tell_bytes(text, class.as_slice())
        }
        StubResult::Kept => text.push_str(" kept"),
    }
}

/// Adds an argument, in the word of a stub file.
fn tell_argument(text: &mut String, argument: StubArgument) -> Result<(), AllocError> {
    match argument {
        StubArgument::This => text.push_str(" this"),
        StubArgument::Argument(number) => write!(text, " arg{number}"),
    }
}

/// Adds the line of a field: what it is, its name and descriptor, and what it holds.
fn tell_field(text: &mut String, field: &StubField) -> Result<(), AllocError> {
    text.push_str("\n    ")?;
    if field.is_static {
        text.push_str("static ")?;
    }
    tell_bytes(text, field.name.as_slice())?;
    text.push_str(" ")?;
    tell_bytes(text, field.descriptor.as_slice())?;
    if let Some(class) = &field.holds {
        text.push_str(" holds ")?;
        tell_bytes(text, class.as_slice())?;
    }
    Ok(())
}
