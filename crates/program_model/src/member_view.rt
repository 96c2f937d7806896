//! A method or a field of a linked program, as the searches see it.

use jvm_model::ClassNo;
use jvm_model::lookup::Signature;

/// A method or a field: its class, its access flags (JVMS 4.5, 4.6), its name and its descriptor.
#[derive(Clone, Copy, Debug)]
pub struct MemberView<'a> {
    pub class: ClassNo,
    pub flags: u16,
    pub signature: Signature<'a>,
}
