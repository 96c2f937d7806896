//! A class file that was read, as text.

use jvm_model::{Attribute, ClassFile, Member, PoolEntry};
use std::alloc::{AllocError, Global};
use std::str;

/// The numbers of a class file, the entries of its constant pool, its interfaces, its members, and its attributes.
pub fn told_class(alloc: Global, class: &ClassFile) -> Result<String, AllocError> {
    let mut text = String::new(alloc);
    tell_class(&mut text, class)?;
    Ok(text)
}

/// Adds the parts of a class file, in its order.
fn tell_class(text: &mut String, class: &ClassFile) -> Result<(), AllocError> {
    tell_version(text, class)?;
    tell_pool(text, class.pool.as_slice())?;
    tell_interfaces(text, class.interfaces.as_slice())?;
    tell_members(text, "fields", class.fields.as_slice())?;
    tell_members(text, "methods", class.methods.as_slice())?;
    tell_attributes(text, class.attributes.as_slice())
}

/// Adds the version of a class file, its flags, and the indices of its name and of that of its superclass.
fn tell_version(text: &mut String, class: &ClassFile) -> Result<(), AllocError> {
    write!(text, "version {}.{}", class.major, class.minor)?;
    write!(
        text,
        " flags {:04x} class {}",
        class.flags, class.this_class
    )?;
    write!(text, " superclass {}", class.super_class)
}

/// Adds the entries of the constant pool.
fn tell_pool(text: &mut String, pool: &[PoolEntry]) -> Result<(), AllocError> {
    text.push_str(" pool")?;
    for entry in pool {
        text.push(' ')?;
        tell_entry(text, entry)?;
    }
    Ok(())
}

/// Adds the indices of the interfaces.
fn tell_interfaces(text: &mut String, interfaces: &[u16]) -> Result<(), AllocError> {
    text.push_str(" interfaces")?;
    for interface in interfaces {
        write!(text, " {interface}")?;
    }
    Ok(())
}

/// Adds an entry of the constant pool.
fn tell_entry(text: &mut String, entry: &PoolEntry) -> Result<(), AllocError> {
    match entry {
        PoolEntry::Utf8(bytes) => tell_text(text, bytes.as_slice()),
        PoolEntry::Integer(bits) => tell_one(text, "int", u64::from(*bits)),
        PoolEntry::Float(bits) => tell_one(text, "float", u64::from(*bits)),
        PoolEntry::Long(bits) => tell_one(text, "long", *bits),
        PoolEntry::Double(bits) => tell_one(text, "double", *bits),
        PoolEntry::Class(name) => tell_one(text, "class", u64::from(*name)),
        PoolEntry::Str(value) => tell_one(text, "string", u64::from(*value)),
        PoolEntry::Fieldref { class, member } => tell_two(text, "field", *class, *member),
        PoolEntry::Methodref { class, member } => tell_two(text, "method", *class, *member),
        PoolEntry::InterfaceMethodref { class, member } => {
            tell_two(text, "interface_method", *class, *member)
        }
        PoolEntry::NameAndType { name, descriptor } => tell_two(text, "name", *name, *descriptor),
        PoolEntry::MethodHandle { kind, reference } => {
            tell_two(text, "handle", u16::from(*kind), *reference)
        }
        PoolEntry::MethodType(descriptor) => tell_one(text, "type", u64::from(*descriptor)),
        PoolEntry::InvokeDynamic { bootstrap, member } => {
            tell_two(text, "dynamic", *bootstrap, *member)
        }
        PoolEntry::Taken => text.push_str("taken"),
    }
}

/// Adds an entry that is one number.
fn tell_one(text: &mut String, title: &str, number: u64) -> Result<(), AllocError> {
    write!(text, "{title}({number})")
}

/// Adds an entry of two numbers.
fn tell_two(text: &mut String, title: &str, first: u16, second: u16) -> Result<(), AllocError> {
    write!(text, "{title}({first},{second})")
}

/// Adds a text of the constant pool, or its digits where it is none.
fn tell_text(text: &mut String, bytes: &[u8]) -> Result<(), AllocError> {
    match str::from_utf8(bytes) {
        Ok(shown) => write!(text, "\"{shown}\""),
        Err(_) => tell_hex(text, bytes),
    }
}

/// Adds members: each with its flags, its name and its descriptor, and its attributes.
fn tell_members(text: &mut String, title: &str, members: &[Member]) -> Result<(), AllocError> {
    write!(text, " {title}")?;
    for member in members {
        write!(text, " {:04x}", member.flags)?;
        write!(text, "({},{})", member.name, member.descriptor)?;
        tell_attributes(text, member.attributes.as_slice())?;
    }
    Ok(())
}

/// Adds attributes: each with its name and the digits of its body.
fn tell_attributes(text: &mut String, attributes: &[Attribute]) -> Result<(), AllocError> {
    text.push_str(" attributes")?;
    for attribute in attributes {
        write!(text, " {}:", attribute.name)?;
        tell_hex(text, attribute.body.as_slice())?;
    }
    Ok(())
}

/// Adds bytes by their digits.
fn tell_hex(text: &mut String, bytes: &[u8]) -> Result<(), AllocError> {
    for byte in bytes {
        write!(text, "{byte:02x}")?;
    }
    Ok(())
}
