//! An exit of a method.

use jvm_model::MethodNo;
use op_model::Spot;
use stage_facts::PlainFact;

/// An edge to a spot of a method: with what the method was entered, and the fact at the spot.
#[derive(Clone, Copy)]
pub struct Exit<'f> {
    pub method: MethodNo,
    pub entry: &'f PlainFact,
    pub spot: Spot,
    pub fact: &'f PlainFact,
}
