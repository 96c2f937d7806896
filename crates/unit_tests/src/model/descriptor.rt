//! What `descriptor_of` makes of descriptors.

use crate::seen::see;
use jvm_model::{Descriptor, Kind, descriptor_of};
use std::alloc::{AllocError, Global};
use std::process::Abort;

/// Adds a kind to a text, and a space. The dimensions of an array are a byte.
fn push_kind(text: &mut Vec<u8>, kind: &Kind) -> Result<(), AllocError> {
    match kind {
        Kind::Prim { wide: true } => text.extend_from_slice(b"wide"),
        Kind::Prim { wide: false } => text.extend_from_slice(b"prim"),
        Kind::Class(name) => text.extend_from_slice(name.as_slice()),
        Kind::Array {
            dimensions,
            element,
        } => push_array(text, *dimensions, element.as_slice()),
    }?;
    text.push(b' ')?;
    Ok(())
}

/// Adds an array to a text.
fn push_array(text: &mut Vec<u8>, dimensions: u8, element: &[u8]) -> Result<(), AllocError> {
    text.push(dimensions)?;
    text.extend_from_slice(b" of ")?;
    text.extend_from_slice(element)
}

/// Adds kinds to a text.
fn push_kinds(text: &mut Vec<u8>, kinds: &[Kind]) -> Result<(), AllocError> {
    for kind in kinds {
        push_kind(text, kind)?;
    }
    Ok(())
}

/// Adds a descriptor to a text.
fn push_descriptor(text: &mut Vec<u8>, descriptor: &Descriptor) -> Result<(), AllocError> {
    match descriptor {
        Descriptor::Field(kind) => push_kind(text, kind),
        Descriptor::Method {
            parameters,
            outcome,
        } => {
            text.extend_from_slice(b"takes ")?;
            push_kinds(text, parameters.as_slice())?;
            text.extend_from_slice(b"gives ")?;
            push_kinds(text, outcome.as_slice())
        }
    }
}

/// A descriptor in words.
fn in_words(alloc: Global, bytes: &[u8]) -> Result<Vec<u8>, AllocError> {
    let mut text = Vec::new(alloc);
    match &descriptor_of(alloc, bytes)? {
        None => text.extend_from_slice(b"none"),
        Some(descriptor) => push_descriptor(&mut text, descriptor),
    }?;
    Ok(text)
}

/// Looks at a descriptor in words.
fn look_at_words(
    rt: &impl Abort,
    alloc: Global,
    bytes: &[u8],
    want: &[u8],
) -> Result<(), AllocError> {
    let told = in_words(alloc, bytes)?;
    see(rt, told.as_slice(), want);
    Ok(())
}

/// Looks at descriptors in words.
fn look_at_all(rt: &impl Abort, alloc: Global) -> Result<(), AllocError> {
    let cases = [
        ("I", "prim "),
        ("J", "wide "),
        ("D", "wide "),
        ("[[I", "\x02 of I "),
        ("Ljava/lang/String;", "java/lang/String "),
        ("[LA;", "\x01 of LA; "),
        (
            "(ID[Ljava/lang/String;)V",
            "takes prim wide \x01 of Ljava/lang/String; gives ",
        ),
        ("()J", "takes gives wide "),
        ("()[[D", "takes gives \x02 of D "),
        ("V", "none"),
        ("(V)V", "none"),
        ("II", "none"),
        ("", "none"),
    ];
    for (text, want) in cases {
        look_at_words(rt, alloc, text.as_bytes(), want.as_bytes())?;
    }
    Ok(())
}

#[test]
fn descriptors_have_values(rt: HostRuntime) -> Result<(), AllocError> {
    look_at_all(&rt, rt.alloc())
}

/// Looks at an array of booleans with so many dimensions, in words.
fn look_at_array(
    rt: &impl Abort,
    alloc: Global,
    dimensions: usize,
    want: &[u8],
) -> Result<(), AllocError> {
    let mut text = vec![in alloc; b'['; dimensions]?;
    text.push(b'Z')?;
    look_at_words(rt, alloc, &text, want)
}

#[test]
fn arrays_have_dimensions(rt: HostRuntime) -> Result<(), AllocError> {
    look_at_array(&rt, rt.alloc(), 255, b"\xff of Z ")?;
    look_at_array(&rt, rt.alloc(), 256, b"none")
}
