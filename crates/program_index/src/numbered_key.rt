//! The key of a member with numbers for its texts.

use jvm_model::ClassNo;

/// A member of a class, its name and its descriptor by number.
#[derive(Clone, Copy, PartialEq, Eq, Hash)]
pub struct NumberedKey {
    pub class: ClassNo,
    pub name: u32,
    pub descriptor: u32,
}
