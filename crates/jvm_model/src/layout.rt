//! How many bytes the parts of a class file take, and where they stand (JVMS 4.1). Each offset counts the
//! bytes of the file before the part, so that the first byte of the file stands at 0.

ghost use Rattle.std.specs.Prelude.{◌≡◌, ◌^◌, ◌<◌, true, length, flat_map};
ghost use Rattle.std.specs.List.{list_any};
ghost use Rattle.jvm_model.specs.Layout.{HasCodeAttribute, IsBeforeCode, IsCodePlace};
ghost use Rattle.jvm_model.specs.Soundness.{flags_offset, this_class_offset, super_class_offset, interfaces_offset, fields_offset, methods_offset, attributes_offset, is_code};
ghost use Rattle.jvm_model.specs.Spelling as spelling;

use crate::class_file::{Attribute, ClassFile, Member};
use crate::lookup::text_at;
use crate::pool::PoolEntry;

/// How many bytes an index takes (JVMS 4.1).
pub const INDEX: u32 = 2;

/// Where the index of the class stands, from the flags on (JVMS 4.1).
pub const THIS_CLASS: u32 = 2;

/// Where the index of the superclass stands, from the flags on (JVMS 4.1).
pub const SUPER_CLASS: u32 = 4;

/// Where the first interface stands, from the flags on, after the count of the interfaces (JVMS 4.1).
pub const INTERFACES: u32 = 8;

/// Where the name of a field or a method stands in it, after its flags; its descriptor is the next index (JVMS 4.5, 4.6).
pub const MEMBER_NAME: u32 = 2;

/// Where the first attribute of a field or a method stands in it, after the count of the attributes (JVMS 4.5, 4.6).
pub const MEMBER_ATTRIBUTES: u32 = 8;

/// Where the body of an attribute stands in it, after its name and its length (JVMS 4.7).
pub const ATTRIBUTE_BODY: u32 = 6;

/// How many bytes an entry of the constant pool takes, its tag included (JVMS 4.4). Taken has none.
pub fn entry_length(entry: &PoolEntry) -> u32
    requires { length (spelling.entry entry.now) < 2 ^ 32 }
    ensures { result ≡ length (spelling.entry entry.now) }
{
    match entry {
        PoolEntry::Utf8(bytes) => bytes.len() as u32 + 3,
        PoolEntry::Integer(_) => 5,
        PoolEntry::Float(_) => 5,
        PoolEntry::Long(_) => 9,
        PoolEntry::Double(_) => 9,
        PoolEntry::Class(_) => 3,
        PoolEntry::Str(_) => 3,
        PoolEntry::Fieldref { .. } => 5,
        PoolEntry::Methodref { .. } => 5,
        PoolEntry::InterfaceMethodref { .. } => 5,
        PoolEntry::NameAndType { .. } => 5,
        PoolEntry::MethodHandle { .. } => 4,
        PoolEntry::MethodType(_) => 3,
        PoolEntry::InvokeDynamic { .. } => 5,
        PoolEntry::Taken => 0,
    }
}

/// How many bytes the entries of the constant pool take (JVMS 4.4).
fn pool_length(pool: &[PoolEntry]) -> u32
    requires { length (flat_map spelling.entry pool.now) < 2 ^ 32 }
    ensures { result ≡ length (flat_map spelling.entry pool.now) }
{
    let mut bytes = 0;
    for entry in pool {
        bytes += entry_length(entry);
    }
    bytes
}

/// How many bytes an attribute takes: two of its name, four of its length, and its body (JVMS 4.7).
pub fn attribute_length(attribute: &Attribute) -> u32
    requires { length (spelling.attribute attribute.now) < 2 ^ 32 }
    ensures { result ≡ length (spelling.attribute attribute.now) }
{
    attribute.body.len() as u32 + ATTRIBUTE_BODY
}

/// How many bytes attributes take, without their count (JVMS 4.7).
fn attributes_length(attributes: &[Attribute]) -> u32
    requires { length (flat_map spelling.attribute attributes.now) < 2 ^ 32 }
    ensures { result ≡ length (flat_map spelling.attribute attributes.now) }
{
    let mut bytes = 0;
    for attribute in attributes {
        bytes += attribute_length(attribute);
    }
    bytes
}

/// How many bytes a field or a method takes: two each of its flags, its name, its descriptor and the count
/// of its attributes, and the attributes (JVMS 4.5, 4.6).
pub fn member_length(member: &Member) -> u32
    requires { length (spelling.member member.now) < 2 ^ 32 }
    ensures { result ≡ length (spelling.member member.now) }
{
    attributes_length(member.attributes.as_slice()) + MEMBER_ATTRIBUTES
}

/// How many bytes fields or methods take, without their count (JVMS 4.5, 4.6).
fn members_length(members: &[Member]) -> u32
    requires { length (flat_map spelling.member members.now) < 2 ^ 32 }
    ensures { result ≡ length (flat_map spelling.member members.now) }
{
    let mut bytes = 0;
    for member in members {
        bytes += member_length(member);
    }
    bytes
}

/// The file offset of the flags of the class, right after the constant pool (JVMS 4.1).
pub fn flags_offset(class: &ClassFile) -> u32
    requires { length (spelling.spell class.now) < 2 ^ 32 }
    ensures { result ≡ flags_offset class.now }
{
    pool_length(class.pool.as_slice()) + 10
}

/// The file offset of the index of the class itself, after the flags (JVMS 4.1).
pub fn this_class_offset(class: &ClassFile) -> u32
    requires { length (spelling.spell class.now) < 2 ^ 32 }
    ensures { result ≡ this_class_offset class.now }
{
    flags_offset(class) + THIS_CLASS
}

/// The file offset of the index of the superclass, after that of the class itself (JVMS 4.1).
pub fn super_class_offset(class: &ClassFile) -> u32
    requires { length (spelling.spell class.now) < 2 ^ 32 }
    ensures { result ≡ super_class_offset class.now }
{
    flags_offset(class) + SUPER_CLASS
}

/// The file offset of the first interface (JVMS 4.1): the flags, the class, its superclass and the count of
/// the interfaces stand between.
pub fn interfaces_offset(class: &ClassFile) -> u32
    requires { length (spelling.spell class.now) < 2 ^ 32 }
    ensures { result ≡ interfaces_offset class.now }
{
    flags_offset(class) + INTERFACES
}

/// The file offset of the first field, after the interfaces and the count of the fields (JVMS 4.1, 4.5).
pub fn fields_offset(class: &ClassFile) -> u32
    requires { length (spelling.spell class.now) < 2 ^ 32 }
    ensures { result ≡ fields_offset class.now }
{
    interfaces_offset(class) + INDEX * class.interfaces.len() as u32 + 2
}

/// The file offset of the first method, after the fields and the count of the methods (JVMS 4.1, 4.6).
pub fn methods_offset(class: &ClassFile) -> u32
    requires { length (spelling.spell class.now) < 2 ^ 32 }
    ensures { result ≡ methods_offset class.now }
{
    fields_offset(class) + members_length(class.fields.as_slice()) + 2
}

/// The file offset of the first attribute of the class, after the methods and the count of the attributes
/// (JVMS 4.1, 4.7).
pub fn attributes_offset(class: &ClassFile) -> u32
    requires { length (spelling.spell class.now) < 2 ^ 32 }
    ensures { result ≡ attributes_offset class.now }
{
    methods_offset(class) + members_length(class.methods.as_slice()) + 2
}

/// Whether an attribute is named `Code` (JVMS 4.7.3).
pub fn is_code(pool: &[PoolEntry], attribute: &Attribute) -> bool
    ensures { result ≡ is_code pool.now attribute.now }
{
    match text_at(pool, attribute.name) {
        Some(name) => b"Code".as_slice() == name,
        None => false,
    }
}

/// How many bytes the attributes before the first one named `Code` take (JVMS 4.7, 4.7.3).
fn length_before_code(pool: &[PoolEntry], attributes: &[Attribute]) -> u32
    requires size { length (flat_map spelling.attribute attributes.now) < 2 ^ 32 }
    requires code { list_any (is_code pool.now) attributes.now ≡ true }
    ensures { IsBeforeCode pool.now attributes.now result }
{
    let mut bytes = 0;
    for attribute in attributes {
        if is_code(pool, attribute) {
            return bytes;
        }
        bytes += attribute_length(attribute);
    }
    unreachable!()
}

/// The file offset of the body of the `Code` attribute of a method, which is named by its place in the list of
/// the methods (JVMS 4.7.3). Before the body stand the methods before this one; eight bytes of this method;
/// the attributes before this one; and six bytes of name and length.
pub fn code_place(class: &ClassFile, method: usize) -> u32
    requires size { length (spelling.spell class.now) < 2 ^ 32 }
    requires code { HasCodeAttribute class.now method }
    ensures { IsCodePlace class.now method result }
{
    let methods = class.methods.as_slice();
    let attributes = methods[method].attributes.as_slice();
    let earlier_methods = members_length(&methods[..method]);
    let earlier_attributes = length_before_code(class.pool.as_slice(), attributes);
    methods_offset(class)
        + earlier_methods
        + MEMBER_ATTRIBUTES
        + earlier_attributes
        + ATTRIBUTE_BODY
}
