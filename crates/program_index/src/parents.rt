//! The direct supertypes of a class, by number.

/// The direct supertypes of a class, by number: its superclass and its superinterfaces, in their order (JVMS 4.1).
#[derive(Debug, Drop)]
pub struct Parents {
    /// The number of the superclass, if there is one.
    pub super_class: Option<u32>,
    /// The numbers of the superinterfaces, in the order of the class file.
    pub interfaces: Vec<u32>,
}
