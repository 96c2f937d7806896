//! Why the last stage does not prove a site safe: a derivation of a path edge in which an object is in the error state, as lines.

ghost use Rattle.std.specs.Prelude.{◌≡◌, ◌<◌, ◌≤◌, ◌++◌, length, All, Some, slice_get, IfOk, OnOk};
ghost use Rattle.std.specs.List.{flat_map};
ghost use Rattle.machine_bytecode.specs.Objects.{Subject};
ghost use Rattle.jvm_model.specs.declared.site.Site.{Site as RuleSite};
ghost use Rattle.ground_views.specs.Questions.{edge_of};
ghost use Rattle.ground_views.specs.Views.{AreViewsOf};
ghost use Rattle.report_spec.specs.Traces.{trace_line};
ghost use Rattle.stage_verdicts.specs.LaterVerdicts.{IsAsked, IsLeftBy, IsSubjectOf, IsTraceText};
ghost use Rattle.stage_verdicts.specs.TraceTexts.{AreDerivationLines, line_at};

use crate::asked::{LaterStages, question_of};
use crate::finding::{edges_of, error_place};
use edge_derivations::derivation_of;
use edge_lines::{EdgeText, push_edge_line};
use ground_views::{GroundViews, PathEdge};
use jvm_model::SiteNo;
use stage_views::StageSetting;
use std::alloc::{AllocError, Global};
use tabulation::Tabulation;

/// Why the last stage does not prove a site safe, as lines: a path edge in which an object is in the error state, behind all edges from which it follows.
/// The stage comes to no limit there. It is as if memory ran out where 32 bits do not count what the path edges are made of.
pub fn error_trace(
    alloc: Global,
    views: &GroundViews<'_>,
    asked: LaterStages<'_, '_>,
    site: SiteNo,
) -> Result<Vec<u8>, AllocError>
    requires asked { IsAsked asked }
    requires views { AreViewsOf asked.ground.now asked.entry views.now }
    requires site { site.0 < length asked.ground.now.sites }
    requires two { 2 ≤ asked.stages }
    requires left { (x : Subject) (s : RuleSite) → IsSubjectOf asked x → slice_get asked.ground.now.sites site.0 ≡ Some s → IsLeftBy asked x s asked.stages }
    ensures { IfOk result (λ text. (x : Subject) (s : RuleSite) → IsSubjectOf asked.entry x → slice_get asked.entry.ground.now.sites site.0 ≡ Some s → IsTraceText asked.entry x s text.items) }
{
    let question = question_of(asked, site, asked.stages);
    let Some(edges) = edges_of(alloc, views, &question)? else {
        unreachable!()
    };
    match error_place(asked.automaton, &edges) {
        Some(place) => derivation_lines(alloc, question.setting, &edges, place),
        None => unreachable!(),
    }
}

/// The lines of the derivation of the edge at a place.
fn derivation_lines(
    alloc: Global,
    setting: StageSetting<'_>,
    edges: &Tabulation,
    last: usize,
) -> Result<Vec<u8>, AllocError>
    requires { last < length edges.now.edges }
    ensures { IfOk result (λ text. AreDerivationLines setting.entry.stage setting.entry.site.now edges.now last text.items) }
{
    let places = derivation_of(alloc, edges, last)?;
    lines_at(alloc, setting, edges, places.as_slice())
}

/// The lines of the edges at some places, one after another.
fn lines_at(
    alloc: Global,
    setting: StageSetting<'_>,
    edges: &Tabulation,
    places: &[usize],
) -> Result<Vec<u8>, AllocError>
    requires { All (λ place. place < length edges.now.edges) places.now }
    ensures { IfOk result (λ text. text.items ≡ flat_map (line_at setting.entry.stage setting.entry.site.now edges.now.edges) places.now) }
{
    let mut text = Vec::new(alloc);
    for place in places {
        push_edge(&mut text, setting, &edges.at(*place))?;
    }
    Ok(text)
}

/// Adds the line of an edge, behind two spaces.
fn push_edge(
    text: &mut Vec<u8>,
    setting: StageSetting<'_>,
    edge: &PathEdge,
) -> Result<(), AllocError>
    ensures { OnOk result (text.new.items ≡ text.old.items ++ trace_line setting.entry.stage setting.entry.site.now (edge_of edge.now)) }
{
    text.extend_from_slice(b"  ")?;
    push_edge_line(
        text,
        &EdgeText {
            stage: setting.stage,
            site: setting.site,
            method: edge.method,
            entry: &edge.entry,
            spot: edge.spot,
            fact: &edge.fact,
        },
    )
}
