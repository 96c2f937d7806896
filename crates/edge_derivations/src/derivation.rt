//! The derivation of one path edge: from its place down, each edge that is needed tells from which ones it follows.

ghost use Rattle.std.specs.Prelude.{◌<◌, List, length, All, IfOk};
ghost use Rattle.machine_bytecode.specs.Objects.{Subject};
ghost use Rattle.least_sets.specs.Rules.{IsDerivation};
ghost use Rattle.edge_numbers.specs.Premises.{AreReasons, StandAt};
ghost use Rattle.stage_transfer.specs.Settings.{Setting};
ghost use Rattle.stage_edges.specs.Rules.{Edge};
ghost use Rattle.ground_views.specs.declared.question.Question.{Question};
ghost use Rattle.ground_views.specs.Questions.{GroundInstance};
ghost use Rattle.edge_derivations.specs.Derived.{IsCutFor};
ghost use Rattle.edge_derivations.specs.Marks.{AreNeeded};

use crate::marks::{mark_named, marked_places};
use std::alloc::{AllocError, Global};
use tabulation::Tabulation;

/// The derivation of the edge at a place: the places of the edges from which it follows, of those from which these follow, and so on, in their order.
/// Its own place stands at the end.
pub fn derivation_of(
    alloc: Global,
    found: &Tabulation,
    last: usize,
) -> Result<Vec<usize>, AllocError>
    requires { last < length found.now.edges }
    ensures cut { IfOk result (λ places. IsCutFor found.now.reasons last places.items) }
    ensures derived { IfOk result (λ places. (q : Question) (x : Subject) (w : Setting) (these : List Edge)
        → AreReasons (GroundInstance q x w) found.now.edges found.now.reasons → StandAt found.now.edges places.items these → IsDerivation (GroundInstance q x w) these) }
    ensures within { IfOk result (λ places. All (λ place. place < length found.now.edges) places.items) }
{
    let needed = needed_before(alloc, found, last)?;
    let mut places = marked_places(alloc, &needed)?;
    places.push(last)?;
    Ok(places)
}

/// For each place before the last one, whether its edge is needed.
fn needed_before(alloc: Global, found: &Tabulation, last: usize) -> Result<Vec<bool>, AllocError>
    requires { last < length found.now.edges }
    ensures { IfOk result (λ marks. AreNeeded found.now.reasons last marks.items) }
{
    let mut needed = vec![in alloc; false; last]?;
    mark_named(&mut needed, last, found.because(last));
    for place in (0..last).rev() {
        if needed[place] {
            mark_named(&mut needed, place, found.because(place));
        }
    }
    Ok(needed)
}
