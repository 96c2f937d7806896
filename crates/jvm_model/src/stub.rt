//! What stubs say of the classes of the library: their supertypes, their methods with every outcome of a call, and
//! their fields. Nothing of the library's own bytecode is read.

use crate::name::Name;
use crate::sequence::{Bytes, Sequence};

/// An argument of a call: its receiver, or a parameter, counted from 1.
#[derive(Clone, Copy, Debug, PartialEq, Eq)]
pub enum StubArgument {
    This,
    Argument(u8),
}

/// One result that a call may have.
#[derive(Debug, Drop)]
pub enum StubResult {
    /// A primitive value.
    Primitive,
    /// No value.
    Void,
    /// The null reference.
    Null,
    /// An argument of the call.
    Given(StubArgument),
    /// A new object of this class.
    New(Bytes),
    /// An object that some call of a stub has kept, and whose class is a subtype of the result's.
    Kept,
}

/// A method: the results that a call of it may have, the classes of the exceptions that it may throw, and the
/// arguments that it keeps. An abstract one has none of these.
#[derive(Debug, Drop)]
pub struct StubMethod {
    pub name: Bytes,
    pub descriptor: Bytes,
    pub is_static: bool,
    pub is_abstract: bool,
    pub returns: Sequence<StubResult>,
    pub throws: Sequence<Bytes>,
    pub keeps: Sequence<StubArgument>,
}

/// A field; a static one of a reference type may hold an object of a class from the start.
#[derive(Debug, Drop)]
pub struct StubField {
    pub name: Bytes,
    pub descriptor: Bytes,
    pub is_static: bool,
    pub holds: Option<Bytes>,
}

/// A class or an interface of the library, and the file that describes it. `super_class` is empty where there is none:
/// in `java/lang/Object`, and in a patch, which only adds methods to the class of its name.
#[derive(Debug, Drop)]
pub struct StubClass {
    pub file: Name,
    pub name: Bytes,
    pub super_class: Bytes,
    pub interfaces: Sequence<Bytes>,
    pub is_interface: bool,
    pub is_patch: bool,
    pub methods: Sequence<StubMethod>,
    pub fields: Sequence<StubField>,
}
