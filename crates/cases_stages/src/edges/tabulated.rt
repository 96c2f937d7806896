//! Tabulation beside the slow program: they find the same path edges, and come to the same limit.

ghost use Rattle.std.specs.Prelude.{◌≡◌, ◌<◌, ◌≤◌, Some, slice_get, IfOk};
ghost use Rattle.program_model.specs.Numbers.{IsMethodNumber};
ghost use Rattle.ground_views.specs.Views.{AreViewsOf};

use anyhow::{Result, bail};
use edge_derivations::derivation_of;
use edge_numbers::Because;
use failure::Failure;
use ground::Ground;
use ground_views::{EdgesFault, GroundViews, PathEdge, Question, is_among};
use jvm_model::MethodNo;
use std::alloc::{AllocError, Global};
use tabulation::{Tabulation, tabulate};

/// The views of a ground, with an entry.
pub fn views_of<'p>(alloc: Global, ground: &Ground<'p>, entry: MethodNo) -> Result<GroundViews<'p>>
    requires { IsMethodNumber ground.now.program entry.0 }
    ensures { IfOk result (λ views. AreViewsOf ground.now entry views) }
{
    match GroundViews::of(alloc, ground, entry) {
        Ok(views) => Ok(views),
        Err(Failure::Cause(_)) => bail!("there is too much to number"),
        Err(Failure::OutOfMemory) => Err(AllocError.into()),
    }
}

/// Stops where tabulation finds other path edges than these, or finds them within a limit that they reach.
pub fn compare_edges(
    alloc: Global,
    views: &GroundViews<'_>,
    question: &Question<'_, '_>,
    edges: &[PathEdge],
) -> Result<()>
    requires views { AreViewsOf question.now.ground.now question.now.entry views.now }
    requires site { slice_get question.now.ground.now.sites question.now.site.0 ≡ Some question.now.setting.site.now }
    requires depth { question.now.setting.depth ≤ 3 }
{
    let count = edges.len();
    let Some(above) = count.checked_add(1) else {
        bail!("there are too many path edges");
    };
    match tabulated(alloc, views, question, above)? {
        Some(found) => {
            if !are_same(&found, edges) {
                bail!("tabulation finds other path edges");
            }
            if !are_behind(&found) {
                bail!("an edge follows from one that does not stand before it");
            }
            if !is_derived(alloc, &found)? {
                bail!("a derivation does not lead from the start to its edge");
            }
        }
        None => bail!("tabulation comes to its limit too early"),
    }
    if count > 0 {
        compare_limit(alloc, views, question, count)?;
    }
    Ok(())
}

/// Stops where tabulation does not come to a limit.
pub fn compare_limit(
    alloc: Global,
    views: &GroundViews<'_>,
    question: &Question<'_, '_>,
    limit: usize,
) -> Result<()>
    requires views { AreViewsOf question.now.ground.now question.now.entry views.now }
    requires site { slice_get question.now.ground.now.sites question.now.site.0 ≡ Some question.now.setting.site.now }
    requires depth { question.now.setting.depth ≤ 3 }
    requires limit { 0 < limit }
{
    match tabulated(alloc, views, question, limit)? {
        Some(_) => bail!("tabulation comes to its limit too late"),
        None => Ok(()),
    }
}

/// What tabulation finds below a limit; `None` where it comes to that.
fn tabulated(
    alloc: Global,
    views: &GroundViews<'_>,
    question: &Question<'_, '_>,
    limit: usize,
) -> Result<Option<Tabulation>>
    requires views { AreViewsOf question.now.ground.now question.now.entry views.now }
    requires site { slice_get question.now.ground.now.sites question.now.site.0 ≡ Some question.now.setting.site.now }
    requires depth { question.now.setting.depth ≤ 3 }
    requires limit { 0 < limit }
{
    let limited = Question {
        ground: question.ground,
        entry: question.entry,
        site: question.site,
        setting: question.setting,
        limit,
    };
    match tabulate(alloc, views, &limited) {
        Ok(found) => Ok(Some(found)),
        Err(Failure::Cause(EdgesFault::Limit)) => Ok(None),
        Err(Failure::Cause(EdgesFault::TooMany)) => bail!("there is too much to number"),
        Err(Failure::OutOfMemory) => Err(AllocError.into()),
    }
}

/// Whether just the first edge follows from none, and each other one from edges that stand before it.
fn are_behind(found: &Tabulation) -> bool {
    for place in 0..found.len() {
        let behind = match found.because(place) {
            Because::Start => place == 0,
            Because::One(edge) => (edge.0 as usize) < place,
            Because::Two(caller, exit) => {
                (caller.0 as usize) < place && (exit.0 as usize) < place
            }
        };
        if !behind {
            return false;
        }
    }
    true
}

/// Whether the derivation of the last edge begins with the first one, and ends with that.
fn is_derived(alloc: Global, found: &Tabulation) -> Result<bool, AllocError> {
    let count = found.len();
    if count == 0 {
        return Ok(false);
    }
    let places = derivation_of(alloc, found, count - 1)?;
    Ok(is_at(places.first(), 0) && is_at(places.last(), count - 1))
}

/// Whether there is a place, and it is this one.
fn is_at(place: Option<&usize>, expected: usize) -> bool {
    match place {
        Some(place) => *place == expected,
        None => false,
    }
}

/// Whether these are as many edges, and each of the first is among the second.
fn are_same(found: &Tabulation, edges: &[PathEdge]) -> bool {
    for place in 0..found.len() {
        if !is_among(edges, &found.at(place)) {
            return false;
        }
    }
    found.len() == edges.len()
}
