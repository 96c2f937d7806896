//! Names and descriptors that are in their grammars, and others that are not.

use crate::seen::see;
use jvm_model::grammar::{is_class_name, is_method_descriptor, is_method_name, is_state_name};
use std::alloc::{AllocError, Global};
use std::process::Abort;

/// A grammar.
#[derive(Clone, Copy)]
enum Grammar {
    ClassName,
    MethodName,
    StateName,
    MethodDescriptor,
}

/// Whether a text is in a grammar.
fn is_in(grammar: Grammar, text: &[u8]) -> bool {
    match grammar {
        Grammar::ClassName => is_class_name(text),
        Grammar::MethodName => is_method_name(text),
        Grammar::StateName => is_state_name(text),
        Grammar::MethodDescriptor => is_method_descriptor(text),
    }
}

/// Looks which texts are in a grammar.
fn look_at_texts(rt: &impl Abort, grammar: Grammar, texts: &[(&str, bool)]) {
    for (text, want) in texts {
        see(rt, (*text, is_in(grammar, text.as_bytes())), (*text, *want));
    }
}

#[test]
fn class_names(rt: HostRuntime) {
    let texts = [
        ("java/lang/Object", true),
        ("A", true),
        ("", false),
        ("/A", false),
        ("A/", false),
        ("A//B", false),
        ("A.B", false),
        ("[A", false),
        ("A;", false),
    ];
    look_at_texts(&rt, Grammar::ClassName, &texts);
}

#[test]
fn method_names(rt: HostRuntime) {
    let texts = [
        ("<init>", true),
        ("<clinit>", true),
        ("<x>", false),
        ("a<", false),
        ("read", true),
        ("", false),
    ];
    look_at_texts(&rt, Grammar::MethodName, &texts);
}

#[test]
fn state_names(rt: HostRuntime) {
    let texts = [
        ("open_1-A", true),
        ("", false),
        ("a b", false),
        (
            "0123456789abcdef0123456789abcdef0123456789abcdef0123456789abcdef",
            true,
        ),
        (
            "0123456789abcdef0123456789abcdef0123456789abcdef0123456789abcdefg",
            false,
        ),
    ];
    look_at_texts(&rt, Grammar::StateName, &texts);
}

#[test]
fn descriptors(rt: HostRuntime) {
    let texts = [
        ("()V", true),
        ("(I)V", true),
        ("(IJ[[Ljava/lang/String;)Z", true),
        ("(V)V", false),
        ("()", false),
        ("()VV", false),
        ("(L;)V", false),
        ("(La.b;)V", false),
        ("([)V", false),
        ("()[V", false),
    ];
    look_at_texts(&rt, Grammar::MethodDescriptor, &texts);
}

/// Whether `(`, so many of a byte, and an end are a descriptor of a method.
fn is_descriptor_of(alloc: Global, byte: u8, count: usize, end: &[u8]) -> Result<bool, AllocError> {
    let mut text = vec![in alloc; byte; count]?;
    text.insert(0, b'(')?;
    text.extend_from_slice(end)?;
    Ok(is_method_descriptor(&text))
}

/// Looks which long texts are descriptors of methods.
fn look_at_long_texts(rt: &impl Abort, alloc: Global) -> Result<(), AllocError> {
    let texts = [
        (b'I', 255, ")V", true),
        (b'I', 256, ")V", false),
        (b'J', 127, ")V", true),
        (b'J', 128, ")V", false),
        (b'[', 255, "I)V", true),
        (b'[', 256, "I)V", false),
    ];
    for (byte, count, end, want) in texts {
        let told = is_descriptor_of(alloc, byte, count, end.as_bytes())?;
        see(rt, (byte, count, told), (byte, count, want));
    }
    Ok(())
}

#[test]
fn long_descriptors(rt: HostRuntime) -> Result<(), AllocError> {
    look_at_long_texts(&rt, rt.alloc())
}
