//! What the place of a result, or of what the library keeps, gets by a call.

use jvm_model::{MethodNo, SiteNo};
use points_to_numbers::ClassNameNo;

/// What a place gets.
#[derive(Clone, Copy, Debug)]
pub(crate) enum Origin {
    /// The objects of a unit of the arguments.
    Unit(usize),
    /// The objects of a site.
    Made(SiteNo),
    /// What the library keeps, where it fits a class.
    Fitting(ClassNameNo),
    /// What a method returns.
    Returned(MethodNo),
}
