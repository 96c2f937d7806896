//! The lines of the path edges by which a later stage proves a site safe.

ghost use Rattle.std.specs.Prelude.{◌≡◌, ◌≤◌, IfOk, OnOk};
ghost use Rattle.program_model.specs.Numbers.{IsClassNumber};
ghost use Rattle.ground.specs.Added.{AreAdded, OfOne};
ghost use Rattle.ground_views.specs.Questions.{edge_of};
ghost use Rattle.certificate_printing.specs.Analysed.{IsAnalysed, IsOwnEdgeLine, IsSafeSite, site_of};
ghost use Rattle.certificate_printing.specs.Collected.{IsEdgeLine, listed_edge};

use crate::claims::Analysed;
use crate::copies::named_site;
use crate::listed::add_line;
use certificate_lines::{Line, ListedEdge};
use ground_views::PathEdge;
use report_analysis::{SafeSite, claimed_edges};
use std::alloc::{AllocError, Global};
use tabulation::Tabulation;

/// Adds the lines of the path edges of a site, by the stage that proves it safe, which is not the first one.
pub(crate) fn add_edges(
    alloc: Global,
    of: Analysed<'_, '_>,
    safe: SafeSite,
    lines: &mut Vec<Line>,
) -> Result<(), AllocError>
    requires analysed { IsAnalysed of }
    requires class { IsClassNumber of.ground.now.program safe.site.class.0 }
    requires safe { IsSafeSite of safe }
    requires later { 2 ≤ safe.stage }
    ensures { OnOk result (AreAdded (IsOwnEdgeLine of.entry safe.site safe.stage) lines.old.items lines.new.items) }
{
    let edges = claimed_edges(alloc, of.views, of.ground, of.automaton, of.asked, safe)?;
    add_each(alloc, of, safe, &edges, lines)
}

/// Adds a line for each of some path edges of a site at a stage.
fn add_each(
    alloc: Global,
    of: Analysed<'_, '_>,
    safe: SafeSite,
    edges: &Tabulation,
    lines: &mut Vec<Line>,
) -> Result<(), AllocError>
    requires { IsClassNumber of.ground.now.program safe.site.class.0 }
    ensures { OnOk result (AreAdded (OfOne (IsEdgeLine safe.stage (site_of of.entry safe.site)) edges.now.edges) lines.old.items lines.new.items) }
{
    for place in 0..edges.len() {
        let edge = listed(alloc, of, safe, edges.at(place))?;
        add_line(Line::PathEdge(edge), lines)?;
    }
    Ok(())
}

/// The path edge of a site at a stage, as a line has it.
fn listed(
    alloc: Global,
    of: Analysed<'_, '_>,
    safe: SafeSite,
    edge: PathEdge,
) -> Result<ListedEdge, AllocError>
    requires { IsClassNumber of.ground.now.program safe.site.class.0 }
    ensures { IfOk result (λ listed. listed ≡ listed_edge safe.stage (site_of of.entry safe.site) (edge_of edge)) }
{
    let site = named_site(alloc, of.ground.program(), safe.site)?;
    Ok(ListedEdge {
        stage: safe.stage,
        site,
        method: edge.method,
        entry: edge.entry,
        spot: edge.spot,
        fact: edge.fact,
    })
}
