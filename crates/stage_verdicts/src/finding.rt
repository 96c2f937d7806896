//! What one stage finds of a site.

ghost use Rattle.std.specs.Prelude.{◌≡◌, ◌↔◌, ◌<◌, ◌≤◌, length, Some, slice_get, IfNone, IfOk, IfSome, IsTrue, MatchOption};
ghost use Rattle.machine_bytecode.specs.Objects.{Subject};
ghost use Rattle.jvm_model.specs.declared.site.Site.{Site as RuleSite};
ghost use Rattle.stage_facts.specs.Plain.{fact_of};
ghost use Rattle.stage_edges.specs.Edges.{IsError};
ghost use Rattle.ground_views.specs.Views.{AreViewsOf};
ghost use Rattle.stage_verdicts.specs.LaterVerdicts.{HasAsMany, HasErrorAt, HasFound, HasNoError, IsAsked, IsFinding, IsFoundBy, IsSubjectOf};

use crate::asked::{LaterStages, question_of};
use failure::Failure;
use ground_views::{EdgesFault, GroundViews, Question};
use jvm_model::{Automaton, SiteNo};
use stage_facts::PlainFact;
use std::alloc::{AllocError, Global};
use tabulation::{Tabulation, tabulate};

/// What a stage finds of a site.
#[derive(Clone, Copy, PartialEq, Eq, Debug)]
pub(crate) enum Finding {
    /// It proves that no object of the site is ever in the error state.
    Safe,
    /// There are as many path edges as the limit.
    AtLimit,
    /// Neither.
    Unproved,
}

/// What a stage finds of a site. It is as if memory ran out where 32 bits do not count what the path edges are made of.
pub(crate) fn finding_of(
    alloc: Global,
    views: &GroundViews<'_>,
    asked: LaterStages<'_, '_>,
    site: SiteNo,
    stage: u8,
) -> Result<Finding, AllocError>
    requires asked { IsAsked asked }
    requires views { AreViewsOf asked.ground.now asked.entry views.now }
    requires site { site.0 < length asked.ground.now.sites }
    requires stage { 2 ≤ stage }
    requires four { stage ≤ 4 }
    ensures { IfOk result (λ finding. (x : Subject) (s : RuleSite) → IsSubjectOf asked.entry x → slice_get asked.entry.ground.now.sites site.0 ≡ Some s → IsFinding asked.entry x s stage finding) }
{
    let question = question_of(asked, site, stage);
    match edges_of(alloc, views, &question)? {
        Some(edges) => Ok(found_by(error_place(asked.automaton, &edges))),
        None => Ok(Finding::AtLimit),
    }
}

/// The path edges that are asked for; none where there are as many as the limit. It is as if memory ran out where 32 bits do not count what they are made of.
pub(crate) fn edges_of(
    alloc: Global,
    views: &GroundViews<'_>,
    question: &Question<'_, '_>,
) -> Result<Option<Tabulation>, AllocError>
    requires views { AreViewsOf question.now.ground.now question.now.entry views.now }
    requires site { slice_get question.now.ground.now.sites question.now.site.0 ≡ Some question.now.setting.site.now }
    requires depth { question.now.setting.depth ≤ 3 }
    requires limit { 0 < question.now.limit }
    ensures edges { IfOk result (λ found. IfSome found (λ t. HasFound question.now t)) }
    ensures limit { IfOk result (λ found. IfNone found (HasAsMany question.now)) }
{
    match tabulate(alloc, views, question) {
        Ok(edges) => Ok(Some(edges)),
        Err(Failure::Cause(EdgesFault::Limit)) => Ok(None),
        Err(Failure::Cause(EdgesFault::TooMany)) => Err(AllocError),
        Err(Failure::OutOfMemory) => Err(AllocError),
    }
}

/// What the path edges tell of the site, by a place where one has an object in the error state, if there is any.
fn found_by(place: Option<usize>) -> Finding
    ensures { IsFoundBy place result }
{
    match place {
        Some(_) => Finding::Unproved,
        None => Finding::Safe,
    }
}

/// The first edge in which an object is in the error state.
pub(crate) fn error_place(automaton: &Automaton, edges: &Tabulation) -> Option<usize>
    ensures { MatchOption result (HasNoError automaton.now edges.now.edges) (HasErrorAt automaton.now edges.now.edges) }
{
    for place in 0..edges.len() {
        if is_error(automaton, &edges.fact(place)) {
            return Some(place);
        }
    }
    None
}

/// Whether an object of the fact is in the error state.
fn is_error(automaton: &Automaton, fact: &PlainFact) -> bool
    ensures { IsTrue result ↔ IsError automaton.now (fact_of fact.now) }
{
    match fact {
        PlainFact::NoneYet => false,
        PlainFact::SomeYet => false,
        PlainFact::OfObject(tuple) => tuple.state == automaton.error,
    }
}
