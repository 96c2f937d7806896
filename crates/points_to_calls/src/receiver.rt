//! An object on which a call is made.

use jvm_model::SiteNo;
use points_to_numbers::CallNo;

/// A call, and the allocation site of an object on which it is made.
#[derive(Clone, Copy)]
pub(crate) struct Receiver {
    pub(crate) call: CallNo,
    pub(crate) site: SiteNo,
}
