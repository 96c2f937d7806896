//! Where access paths begin.

use jvm_model::number::FieldNo;

/// Where a path begins: a slot of the frame, a static field, the value that the frame returns, or the object that it throws.
#[derive(Clone, Copy, PartialEq, Eq, PartialOrd, Ord, Hash)]
pub enum Root {
    Slot(u32),
    Static(FieldNo),
    Returned,
    Thrown,
}
