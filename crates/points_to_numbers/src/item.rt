//! The items that the solver takes in, by numbers.

use crate::keys::{CallNo, ConstraintNo};
use jvm_model::{MethodNo, SiteNo};
use points_to_rules::PlaceNo;

/// What the solver takes in, each once.
#[derive(Clone, Copy, Debug, PartialEq, Eq, Hash)]
pub enum Item {
    /// The place may refer to the objects of the site: a pair.
    Holds(PlaceNo, SiteNo),
    /// The method may run.
    Runs(MethodNo),
    /// The call may go to the method.
    Calls(CallNo, MethodNo),
    /// Each object of the place goes to the constraint.
    Constrains(PlaceNo, ConstraintNo),
}
