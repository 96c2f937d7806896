//! Marks by place: a place is marked once its edge is known to be needed.

ghost use Rattle.std.specs.Prelude.{◌≤◌, ◌∷◌, [], length, IfOk};
ghost use Rattle.edge_numbers.specs.Premises.{premises};
ghost use Rattle.edge_derivations.specs.Marks.{AreListed, AreMarkedBefore, IsMarked};

use edge_numbers::{Because, EdgeNo};
use std::alloc::{AllocError, Global};

/// Marks the edges from which the one at a place follows, as far as they stand before it.
pub(crate) fn mark_named(marks: &mut [bool], place: usize, because: Because)
    requires { place ≤ length marks.old }
    ensures { AreMarkedBefore place (premises because) marks.old marks.new }
{
    match because {
        Because::Start => {}
        Because::One(edge) => mark_before(marks, place, edge),
        Because::Two(caller, exit) => {
            mark_before(marks, place, caller);
            mark_before(marks, place, exit);
        }
    }
}

/// Marks an edge, if it stands before a place.
fn mark_before(marks: &mut [bool], place: usize, edge: EdgeNo)
    requires { place ≤ length marks.old }
    ensures { AreMarkedBefore place (edge.0 ∷ []) marks.old marks.new }
{
    let named = edge.0 as usize;
    if named < place {
        marks[named] = true;
    }
}

/// The marked places, in their order.
pub(crate) fn marked_places(alloc: Global, marks: &[bool]) -> Result<Vec<usize>, AllocError>
    ensures { IfOk result (λ places. AreListed (IsMarked marks.now) (length marks.now) places.items) }
{
    let mut places = Vec::new(alloc);
    for (place, is_marked) in marks.iter().enumerate() {
        if *is_marked {
            places.push(place)?;
        }
    }
    Ok(places)
}
