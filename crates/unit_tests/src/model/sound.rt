//! A small sound class, and what it says at its indices.

ghost use Rattle.std.specs.Prelude.{Contains};
ghost use Rattle.jvm_model.specs.Soundness.{IsSoundClass};

use crate::seen::see;
use classfile_reader::read_class;
use jvm_model::lookup::{Signature, leads_to};
use jvm_model::sound::{
    class_name, code_of, member_signature, method, signature, superclass_name, text,
    this_class_name,
};
use jvm_model::{ClassFile, EntryKind, Member, ReadFailure};
use std::process::Abort;

/// A class A with the superclass B and a method m, whose constant pool is Code, A, B, m, ()V, the classes A and B, the name and the descriptor
/// of the method, and the method.
static CLASS: [u8; 82] = [
    0xca, 0xfe, 0xba, 0xbe, 0, 0, 0, 52, 0, 10, // the version, and how many entries
    1, 0, 4, b'C', b'o', b'd', b'e', 1, 0, 1, b'A', 1, 0, 1, b'B', 1, 0, 1, b'm', //
    1, 0, 3, b'(', b')', b'V', 7, 0, 2, 7, 0, 3, 12, 0, 4, 0, 5, 10, 0, 6, 0, 8, //
    0, 0, 0, 6, 0, 7, 0, 0, 0, 0, // the class, its superclass, no interfaces and no fields
    0, 1, 0, 0, 0, 4, 0, 5, 0, 1, 0, 1, 0, 0, 0, 3, b'a', b'b', b'c', 0, 0,
];

/// The class as bytes, of which the proof of a test need not know each.
fn class() -> &'static [u8] {
    &CLASS
}

/// A name and a descriptor.
fn pair(signature: Signature<'_>) -> (&[u8], &[u8]) {
    (signature.name, signature.descriptor)
}

/// The text at an index.
fn text_at(class: &ClassFile, index: u16) -> Option<&[u8]> {
    if !leads_to(class.pool.as_slice(), &[EntryKind::Text], index) {
        return None;
    }
    Some(text(class, index))
}

/// The name of the class at an index.
fn class_at(class: &ClassFile, index: u16) -> Option<&[u8]>
    requires { IsSoundClass class.now }
{
    if !leads_to(class.pool.as_slice(), &[EntryKind::Class], index) {
        return None;
    }
    Some(class_name(class, index))
}

/// The name and the descriptor at an index.
fn signature_at(class: &ClassFile, index: u16) -> Option<(&[u8], &[u8])>
    requires { IsSoundClass class.now }
{
    if !leads_to(class.pool.as_slice(), &[EntryKind::NameAndType], index) {
        return None;
    }
    Some(pair(signature(class, index)))
}

/// The class of the method at an index, and its name and descriptor.
fn method_at(class: &ClassFile, index: u16) -> Option<(&[u8], (&[u8], &[u8]))>
    requires { IsSoundClass class.now }
{
    if !leads_to(class.pool.as_slice(), &[EntryKind::Method], index) {
        return None;
    }
    let method = method(class, index);
    Some((method.class, pair(method.signature)))
}

/// What the class says at its indices.
fn look_at_indices(rt: &impl Abort, class: &ClassFile)
    requires { IsSoundClass class.now }
{
    see(rt, superclass_name(class), Some(b"B"));
    see(rt, this_class_name(class), b"A");
    see(rt, class_at(class, 7), Some(b"B"));
    see(rt, text_at(class, 4), Some(b"m"));
    see(rt, signature_at(class, 8), Some((b"m", b"()V")));
    see(rt, method_at(class, 9), Some((b"A", (b"m", b"()V"))));
}

/// What the class says of a method.
fn look_at_method(rt: &impl Abort, class: &ClassFile, member: &Member)
    requires sound { IsSoundClass class.now }
    requires there { Contains class.now.methods member.now }
{
    see(rt, pair(member_signature(class, member)), (b"m", b"()V"));
    match code_of(class, member) {
        Some(code) => see(rt, code.body.as_slice(), b"abc"),
        None => panic!(rt; "the method has no code"),
    }
}

/// What the class says of its methods.
fn look_at_methods(rt: &impl Abort, class: &ClassFile)
    requires { IsSoundClass class.now }
{
    see(rt, class.methods.len(), 1);
    for member in class.methods.as_slice() {
        look_at_method(rt, class, member);
    }
}

/// What the class says.
fn look_at_class(rt: &impl Abort, class: &ClassFile)
    requires { IsSoundClass class.now }
{
    look_at_indices(rt, class);
    look_at_methods(rt, class);
}

#[test]
fn a_class_says_its_names(rt: HostRuntime) -> Result<(), ReadFailure> {
    let class = read_class(rt.alloc(), class())?;
    look_at_class(&rt, &class);
    Ok(())
}
