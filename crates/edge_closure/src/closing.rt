//! All instances of the rules are tried until nothing is new.

ghost use Rattle.std.specs.Prelude.{◌≡◌, ◌≤◌, ◌<◌, None, length, slice_get, Some, Contains, IfErr, IfOk, OnOk};
ghost use Rattle.program_model.specs.Numbers.{IsMethodNumber};
ghost use Rattle.op_model.specs.declared.node.Spot.TheVariants as spots;
ghost use Rattle.machine_bytecode.specs.Objects.{Subject};
ghost use Rattle.stage_facts.specs.Facts.{none_yet};
ghost use Rattle.stage_transfer.specs.Settings.{Setting};
ghost use Rattle.stage_edges.specs.Edges.{ArePathEdges};
ghost use Rattle.stage_edges.specs.Rules.{edge};
ghost use Rattle.ground.specs.Findings.{gives_listed};
ghost use Rattle.ground_views.specs.Questions.{edge_of, edges_in, IsAskedOf, IsEdgesEnd};
ghost use Rattle.edge_closure.specs.Tried.{Grows, IsClosedFor, IsFull, IsOpen, StaysSoundBy};
ghost use Rattle.edge_closure.specs.Closings.{IsClosing};

use crate::nodes::try_edge;
use crate::room::{Closing, Room};
use crate::taking::take;
use ground_views::{EdgesFailure, GroundViews, PathEdge, Question};
use op_model::Spot;
use stage_facts::PlainFact;
use std::alloc::Global;

/// The path edges of a site, each once. It fails with the limit where there are as many or more.
pub fn path_edges(alloc: Global, question: &Question<'_, '_>) -> Result<Vec<PathEdge>, EdgesFailure>
    requires entry { IsMethodNumber question.now.ground.now.program question.now.entry.0 }
    requires site { slice_get question.now.ground.now.sites question.now.site.0 ≡ Some question.now.setting.site.now }
    requires depth { question.now.setting.depth ≤ 3 }
    requires limit { 0 < question.now.limit }
    ensures edges { IfOk result (λ edges. (x : Subject) (w : Setting) → IsAskedOf question.now x w
        → ArePathEdges x (gives_listed question.now.ground.now.methods) (Contains question.now.ground.now.facts) w (edges_in edges.items)) }
    ensures few { IfOk result (λ edges. length edges.items < question.now.limit) }
    ensures end { IfErr result (IsEdgesEnd question.now) }
{
    let views = GroundViews::of(alloc, question.ground, question.entry)?;
    let closing = Closing {
        room: Room {
            alloc,
            limit: question.limit,
        },
        question,
        views: &views,
    };
    let mut edges = Vec::new(alloc);
    take(&mut edges, start_edge(), question.limit)?;
    close(&closing, &mut edges)?;
    Ok(edges)
}

/// The edge with which the program starts.
fn start_edge() -> PathEdge
    ensures { edge_of result ≡ edge None none_yet (spots.Node 0) none_yet }
{
    PathEdge {
        method: None,
        entry: PlainFact::NoneYet,
        spot: Spot::Node(0),
        fact: PlainFact::NoneYet,
    }
}

/// Tries all instances, until a whole round finds no edge.
fn close(closing: &Closing<'_, '_, '_>, edges: &mut Vec<PathEdge>) -> Result<(), EdgesFailure>
    requires closing { IsClosing closing.now }
    requires roomy { IsOpen closing.now.room.limit (edges_in edges.old.items) }
    requires started { Contains (edges_in edges.old.items) (edge None none_yet (spots.Node 0) none_yet) }
    ensures grows { Grows (edges_in edges.old.items) (edges_in edges.new.items) }
    ensures sound { StaysSoundBy closing.now.question.now (edges_in edges.old.items) (edges_in edges.new.items) }
    ensures closed { OnOk result (IsClosedFor closing.now.question.now (edges_in edges.new.items)) }
    ensures roomy { OnOk result (IsOpen closing.now.room.limit (edges_in edges.new.items)) }
    ensures end { IfErr result (IsFull closing.now.room.limit (edges_in edges.new.items)) }
{
    let mut before = 0;
    while before < edges.len() {
        before = edges.len();
        try_all(closing, edges)?;
    }
    Ok(())
}

/// Tries all instances once. If no edge was found, there is none left to find.
fn try_all(closing: &Closing<'_, '_, '_>, edges: &mut Vec<PathEdge>) -> Result<(), EdgesFailure>
    requires closing { IsClosing closing.now }
    requires roomy { IsOpen closing.now.room.limit (edges_in edges.old.items) }
    requires started { Contains (edges_in edges.old.items) (edge None none_yet (spots.Node 0) none_yet) }
    ensures grows { Grows (edges_in edges.old.items) (edges_in edges.new.items) }
    ensures sound { StaysSoundBy closing.now.question.now (edges_in edges.old.items) (edges_in edges.new.items) }
    ensures closed { OnOk result (length edges.new.items ≤ length edges.old.items → IsClosedFor closing.now.question.now (edges_in edges.new.items)) }
    ensures roomy { OnOk result (IsOpen closing.now.room.limit (edges_in edges.new.items)) }
    ensures end { IfErr result (IsFull closing.now.room.limit (edges_in edges.new.items)) }
{
    let mut place = 0;
    while place < edges.len() {
        try_edge(closing, edges, place)?;
        place += 1;
    }
    Ok(())
}
