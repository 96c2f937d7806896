//! Allocation sites of which a report tells.

use jvm_model::{ClassNo, MethodNo, SiteKind};

/// An allocation site of which a report tells. `method` is `None` for the start of the program, `offset` is counted from the first byte of the
/// method's code, and `class` is the class of the objects that are made there. Sites stand in the order of these.
#[derive(Clone, Copy, Debug, PartialEq, Eq, PartialOrd, Ord, Hash)]
pub struct TrackedSite {
    pub method: Option<MethodNo>,
    pub offset: u32,
    pub class: ClassNo,
    pub kind: SiteKind,
}
