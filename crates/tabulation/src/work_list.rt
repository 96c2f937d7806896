//! Edges are their own work list.

ghost use Rattle.std.specs.Prelude.{◌≡◌, ◌<◌, ◌≤◌, Some, length, slice_get, Contains, IfErr, IfOk, OnOk};
ghost use Rattle.machine_bytecode.specs.Objects.{Subject};
ghost use Rattle.edge_numbers.specs.Premises.{AreReasons};
ghost use Rattle.stage_transfer.specs.Settings.{Setting};
ghost use Rattle.stage_edges.specs.Edges.{ArePathEdges};
ghost use Rattle.ground.specs.Findings.{gives_listed};
ghost use Rattle.ground_views.specs.Questions.{GroundInstance, IsAskedOf, IsEdgesEnd};
ghost use Rattle.ground_views.specs.Views.{AreViewsOf};
ghost use Rattle.tabulation_tables.specs.Lists.{edges_of, lists_of};
ghost use Rattle.tabulation_tables.specs.Steps.{AreEmpty};
ghost use Rattle.tabulation.specs.Kept.{IsFinished, IsStarted};
ghost use Rattle.tabulation.specs.Works.{IsWork};

use crate::found_edges::Tabulation;
use crate::processing::process;
use crate::taking::take_edge;
use crate::work::{Buffers, Work};
use edge_numbers::{Because, EdgeNo, NumberedEdge};
use ground_views::{EdgesFailure, GroundViews, Question};
use op_model::Spot;
use stage_facts::PlainFact;
use std::alloc::Global;
use tabulation_tables::Tables;

/// The path edges of a site, each once, and from which of those before it each follows by a rule. It fails with the limit where there are as many or more.
pub fn tabulate(
    alloc: Global,
    views: &GroundViews<'_>,
    question: &Question<'_, '_>,
) -> Result<Tabulation, EdgesFailure>
    requires views { AreViewsOf question.now.ground.now question.now.entry views.now }
    requires site { slice_get question.now.ground.now.sites question.now.site.0 ≡ Some question.now.setting.site.now }
    requires depth { question.now.setting.depth ≤ 3 }
    requires limit { 0 < question.now.limit }
    ensures edges { IfOk result (λ found. (x : Subject) (w : Setting) → IsAskedOf question.now x w
        → ArePathEdges x (gives_listed question.now.ground.now.methods) (Contains question.now.ground.now.facts) w found.edges) }
    ensures reasons { IfOk result (λ found. (x : Subject) (w : Setting) → IsAskedOf question.now x w → AreReasons (GroundInstance question.now x w) found.edges found.reasons) }
    ensures few { IfOk result (λ found. length found.edges < question.now.limit) }
    ensures end { IfErr result (IsEdgesEnd question.now) }
{
    let work = Work { views, question };
    let mut tables = Tables::new(alloc);
    let mut buffers = Buffers::new(alloc);
    start(work, &mut tables)?;
    process_all(work, &mut tables, &mut buffers)?;
    tables.ends.well_formed();
    tables.edges.well_formed();
    Ok(Tabulation { tables })
}

/// Takes in that the program starts.
fn start(work: Work<'_, '_, '_>, tables: &mut Tables) -> Result<(), EdgesFailure>
    requires empty { AreEmpty (lists_of tables.old) }
    requires limit { 0 < work.question.now.limit }
    ensures started { OnOk result (IsStarted work.entry.question.now (lists_of tables.new)) }
    ensures end { IfErr result (IsEdgesEnd work.entry.question.now) }
{
    let begin = tables.number(None, Spot::Node(0), &PlainFact::NoneYet)?;
    let edge = NumberedEdge { begin, end: begin };
    take_edge(work, tables, edge, Because::Start)
}

/// Takes in what follows from each edge in turn.
fn process_all(
    work: Work<'_, '_, '_>,
    tables: &mut Tables,
    buffers: &mut Buffers,
) -> Result<(), EdgesFailure>
    requires work { IsWork work }
    requires started { IsStarted work.question.now (lists_of tables.old) }
    ensures finished { OnOk result (IsFinished work.entry.question.now (lists_of tables.new)) }
    ensures end { IfErr result (IsEdgesEnd work.entry.question.now) }
{
    let mut place = 0;
    while place < tables.edges.len() {
        tables.edges.well_formed();
        process(work, tables, buffers, EdgeNo(place as u32))?;
        place += 1;
    }
    Ok(())
}
