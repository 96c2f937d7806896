//! The path edges by which a stage proves a site safe.

ghost use Rattle.std.specs.Prelude.{◌≡◌, ◌<◌, ◌≤◌, length, Some, slice_get, IfOk};
ghost use Rattle.machine_bytecode.specs.Objects.{Subject};
ghost use Rattle.jvm_model.specs.declared.site.Site.{Site as RuleSite};
ghost use Rattle.ground_views.specs.Views.{AreViewsOf};
ghost use Rattle.stage_verdicts.specs.LaterVerdicts.{AreEdgesAt, IsAsked, IsSafeBy, IsSubjectOf};

use crate::asked::{LaterStages, question_of};
use crate::finding::edges_of;
use ground_views::GroundViews;
use jvm_model::SiteNo;
use std::alloc::{AllocError, Global};
use tabulation::Tabulation;

/// The path edges of a site at a stage that proves it safe. It is as if memory ran out where 32 bits do not count what they are made of.
pub fn safe_edges(
    alloc: Global,
    views: &GroundViews<'_>,
    asked: LaterStages<'_, '_>,
    site: SiteNo,
    stage: u8,
) -> Result<Tabulation, AllocError>
    requires asked { IsAsked asked }
    requires views { AreViewsOf asked.ground.now asked.entry views.now }
    requires site { site.0 < length asked.ground.now.sites }
    requires stage { 2 ≤ stage }
    requires four { stage ≤ 4 }
    requires safe { (x : Subject) (s : RuleSite) → IsSubjectOf asked x → slice_get asked.ground.now.sites site.0 ≡ Some s → IsSafeBy asked x s stage }
    ensures { IfOk result (λ found. (x : Subject) (s : RuleSite) → IsSubjectOf asked.entry x → slice_get asked.entry.ground.now.sites site.0 ≡ Some s → AreEdgesAt asked.entry x s stage found.edges) }
{
    let question = question_of(asked, site, stage);
    match edges_of(alloc, views, &question)? {
        Some(edges) => Ok(edges),
        None => unreachable!(),
    }
}
