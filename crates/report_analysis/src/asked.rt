//! What a report is asked for.

use jvm_model::MethodNo;

/// An entry, and up to which stage objects are to keep the property from there; how many fields a store may give a path; how many path edges are too many; and
/// whether it is told why a site is unproved.
#[derive(Clone, Copy)]
pub struct ReportStages {
    pub entry: MethodNo,
    /// From 1 to 4.
    pub stages: u8,
    /// At most 3.
    pub depth: u8,
    /// At least 1.
    pub fact_limit: u32,
    pub trace: bool,
}
