//! The methods and the fields that the files of a case declare, by their names.

use jvm_model::lookup::{Signature, class_name_at, text_at};
use jvm_model::{ClassFile, Member, NamedClass, PoolEntry, StubClass};
use std::alloc::{AllocError, Global};
use std::str;

/// A method or a field.
#[derive(Drop)]
pub struct MemberName {
    pub class: String,
    pub name: String,
    pub descriptor: String,
}

/// The members of all classes, each class's in the order of its file.
#[derive(Drop)]
pub struct Members {
    pub methods: Vec<MemberName>,
    pub fields: Vec<MemberName>,
}

/// The members that the class files and the stubs declare.
pub fn members_of(
    alloc: Global,
    files: &[NamedClass],
    stubs: &[StubClass],
) -> Result<Members, AllocError> {
    let mut members = Members {
        methods: Vec::new(alloc),
        fields: Vec::new(alloc),
    };
    for file in files {
        add_file(alloc, &mut members, &file.class)?;
    }
    for stub in stubs {
        add_stub(alloc, &mut members, stub)?;
    }
    Ok(members)
}

/// Adds the members of a class file.
fn add_file(alloc: Global, members: &mut Members, class: &ClassFile) -> Result<(), AllocError> {
    let pool = class.pool.as_slice();
    let name = shown_at(class_name_at(pool, class.this_class));
    add_members(
        alloc,
        &mut members.methods,
        name,
        pool,
        class.methods.as_slice(),
    )?;
    add_members(
        alloc,
        &mut members.fields,
        name,
        pool,
        class.fields.as_slice(),
    )
}

/// Adds the methods, or the fields, of a class file.
fn add_members(
    alloc: Global,
    names: &mut Vec<MemberName>,
    class: &str,
    pool: &[PoolEntry],
    members: &[Member],
) -> Result<(), AllocError> {
    for member in members {
        let name = shown_at(text_at(pool, member.name));
        let descriptor = shown_at(text_at(pool, member.descriptor));
        names.push(member_name(alloc, class, name, descriptor)?)?;
    }
    Ok(())
}

/// Adds the members that a stub describes.
fn add_stub(alloc: Global, members: &mut Members, stub: &StubClass) -> Result<(), AllocError> {
    let class = shown(stub.name.as_slice());
    add_stub_methods(alloc, &mut members.methods, class, stub)?;
    add_stub_fields(alloc, &mut members.fields, class, stub)
}

/// Adds the methods that a stub describes.
fn add_stub_methods(
    alloc: Global,
    names: &mut Vec<MemberName>,
    class: &str,
    stub: &StubClass,
) -> Result<(), AllocError> {
    for method in stub.methods.as_slice() {
        let name = shown(method.name.as_slice());
        let descriptor = shown(method.descriptor.as_slice());
        names.push(member_name(alloc, class, name, descriptor)?)?;
    }
    Ok(())
}

/// Adds the fields that a stub describes.
fn add_stub_fields(
    alloc: Global,
    names: &mut Vec<MemberName>,
    class: &str,
    stub: &StubClass,
) -> Result<(), AllocError> {
    for field in stub.fields.as_slice() {
        let name = shown(field.name.as_slice());
        let descriptor = shown(field.descriptor.as_slice());
        names.push(member_name(alloc, class, name, descriptor)?)?;
    }
    Ok(())
}

/// A member's name of its own.
fn member_name(
    alloc: Global,
    class: &str,
    name: &str,
    descriptor: &str,
) -> Result<MemberName, AllocError> {
    Ok(MemberName {
        class: String::from_str(alloc, class)?,
        name: String::from_str(alloc, name)?,
        descriptor: String::from_str(alloc, descriptor)?,
    })
}

/// The class of a method, a full stop, and its name and descriptor.
pub fn method_text(alloc: Global, member: &MemberName) -> Result<String, AllocError> {
    let MemberName {
        class,
        name,
        descriptor,
    } = member;
    format!(in alloc; "{class}.{name}{descriptor}")
}

/// The class of a field, a full stop, its name, a colon and its descriptor.
pub fn field_text(alloc: Global, member: &MemberName) -> Result<String, AllocError> {
    let MemberName {
        class,
        name,
        descriptor,
    } = member;
    format!(in alloc; "{class}.{name}:{descriptor}")
}

/// The name and the descriptor of a member, as bytes.
pub fn signature_of(member: &MemberName) -> Signature<'_> {
    Signature {
        name: member.name.as_bytes(),
        descriptor: member.descriptor.as_bytes(),
    }
}

/// A name as text; `?` for one that is not UTF-8.
pub fn shown(name: &[u8]) -> &str {
    str::from_utf8(name).unwrap_or("?")
}

/// A name in a constant pool as text; `?` for none, too.
fn shown_at(name: Option<&[u8]>) -> &str {
    match name {
        Some(name) => shown(name),
        None => "?",
    }
}
