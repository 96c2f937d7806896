//! What a search among several methods gives.

use jvm_model::MethodNo;

/// No method, one, or several; of one its number.
#[derive(Clone, Copy, Debug, PartialEq, Eq)]
pub(crate) enum Choice {
    /// No method.
    Nothing,
    /// One method.
    One(MethodNo),
    /// Several methods.
    Several,
}
