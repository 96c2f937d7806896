//! Variables.

use jvm_model::MethodNo;

/// A variable: a parameter of a method, or a slot from an offset of its code on.
#[derive(Clone, Copy, Debug, PartialEq, Eq, Hash)]
pub enum Variable {
    Parameter {
        method: MethodNo,
        slot: u32,
    },
    At {
        method: MethodNo,
        offset: u32,
        slot: u32,
    },
}
