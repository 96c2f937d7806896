//! A class file as a value (JVMS 4.1).

use crate::pool::PoolEntry;
use crate::sequence::{Bytes, Sequence};

/// An attribute: the pool index of its name, and its body as bytes (JVMS 4.7).
#[derive(Debug, Drop)]
pub struct Attribute {
    pub name: u16,
    pub body: Bytes,
}

/// A field or a method: access flags, and pool indices of name and descriptor (JVMS 4.5, 4.6).
#[derive(Debug, Drop)]
pub struct Member {
    pub flags: u16,
    pub name: u16,
    pub descriptor: u16,
    pub attributes: Sequence<Attribute>,
}

/// A class file. `pool` has the entry of index 1 first, `super_class` is 0 where there is none, and
/// `interfaces` are pool indices.
#[derive(Debug, Drop)]
pub struct ClassFile {
    pub minor: u16,
    pub major: u16,
    pub pool: Sequence<PoolEntry>,
    pub flags: u16,
    pub this_class: u16,
    pub super_class: u16,
    pub interfaces: Sequence<u16>,
    pub fields: Sequence<Member>,
    pub methods: Sequence<Member>,
    pub attributes: Sequence<Attribute>,
}
