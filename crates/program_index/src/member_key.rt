//! What names a member of a class.

use jvm_model::ClassNo;
use jvm_model::lookup::Signature;

/// A member of a class: a field or a method, as JVMS 4.5 and 4.6 tell them apart.
#[derive(Clone, Copy)]
pub struct MemberKey<'a> {
    /// The number of the class.
    pub class: ClassNo,
    /// The name and the descriptor, as the class file spells them.
    pub signature: Signature<'a>,
}
