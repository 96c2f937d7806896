//! The end of a path edge.

use jvm_model::MethodNo;
use op_model::Spot;
use stage_facts::PlainFact;

/// Where a path edge ends: a spot of a method, or of the start of the program where there is none, and the fact there.
#[derive(Drop)]
pub struct PathEnd {
    pub method: Option<MethodNo>,
    pub spot: Spot,
    pub fact: PlainFact,
}
