//! Path edges as a program holds them.

ghost use Rattle.std.specs.Prelude.{◌≡◌, ◌↔◌, IsTrue, Contains};
ghost use Rattle.ground_views.specs.Questions.{edge_of, edges_in};

use edge_steps::is_same_fact;
use jvm_model::MethodNo;
use op_model::Spot;
use stage_facts::PlainFact;

/// In a method, or at the start of the program where there is none, that is entered with one fact, another fact holds at a spot.
#[derive(Drop)]
pub struct PathEdge {
    pub method: Option<MethodNo>,
    pub entry: PlainFact,
    pub spot: Spot,
    pub fact: PlainFact,
}

/// Whether two edges are the same.
pub fn is_same(first: &PathEdge, second: &PathEdge) -> bool
    ensures { IsTrue result ↔ (edge_of first.now ≡ edge_of second.now) }
{
    if first.method != second.method {
        return false;
    }
    if first.spot != second.spot {
        return false;
    }
    if !is_same_fact(&first.entry, &second.entry) {
        return false;
    }
    is_same_fact(&first.fact, &second.fact)
}

/// Whether an edge is among some.
pub fn is_among(edges: &[PathEdge], edge: &PathEdge) -> bool
    ensures { IsTrue result ↔ Contains (edges_in edges.now) (edge_of edge.now) }
{
    for other in edges {
        if is_same(other, edge) {
            return true;
        }
    }
    false
}
