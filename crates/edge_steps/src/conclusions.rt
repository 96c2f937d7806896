//! What follows from path edges.

ghost use Rattle.std.specs.Prelude.{◌≡◌, []};

use jvm_model::MethodNo;
use op_model::Spot;
use stage_facts::PlainFact;
use std::alloc::Global;

/// An edge with the entry of its premise: where it ends, and the fact there.
#[derive(Drop)]
pub struct Conclusion {
    pub spot: Spot,
    pub fact: PlainFact,
}

/// A method of a class file, and the fact with which it is entered.
#[derive(Drop)]
pub struct EnteredWith {
    pub method: MethodNo,
    pub fact: PlainFact,
}

/// What follows from an edge to a node: edges with its entry, and those with which methods begin.
#[derive(Drop)]
pub struct Following {
    pub within: Vec<Conclusion>,
    pub entered: Vec<EnteredWith>,
}

impl Following {
    /// Nothing yet. It takes no memory.
    pub fn new(alloc: Global) -> Self
        ensures within { result.within.items ≡ [] }
        ensures entered { result.entered.items ≡ [] }
    {
        Self {
            within: Vec::new(alloc),
            entered: Vec::new(alloc),
        }
    }
}
