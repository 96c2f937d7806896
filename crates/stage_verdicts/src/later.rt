//! The stages after the first, one after another.

ghost use Rattle.std.specs.Prelude.{◌≡◌, ◌<◌, length, Some, slice_get, IfOk};
ghost use Rattle.machine_bytecode.specs.Objects.{Subject};
ghost use Rattle.jvm_model.specs.declared.site.Site.{Site as RuleSite};
ghost use Rattle.ground_views.specs.Views.{AreViewsOf};
ghost use Rattle.stage_verdicts.specs.LaterVerdicts.{IsAsked, IsLaterVerdict, IsLimited, IsSubjectOf};

use crate::asked::LaterStages;
use crate::finding::{Finding, finding_of};
use ground_views::GroundViews;
use jvm_model::SiteNo;
use site_report::Verdict;
use std::alloc::{AllocError, Global};

/// The verdict of a site that the first stage does not prove safe: by the first later stage that does; else by the first one that comes to its limit. It is as if
/// memory ran out where 32 bits do not count what the path edges are made of.
pub fn later_verdict(
    alloc: Global,
    views: &GroundViews<'_>,
    asked: LaterStages<'_, '_>,
    site: SiteNo,
) -> Result<Verdict, AllocError>
    requires asked { IsAsked asked }
    requires views { AreViewsOf asked.ground.now asked.entry views.now }
    requires site { site.0 < length asked.ground.now.sites }
    ensures { IfOk result (λ verdict. (x : Subject) (s : RuleSite) → IsSubjectOf asked.entry x → slice_get asked.entry.ground.now.sites site.0 ≡ Some s → IsLaterVerdict asked.entry x s verdict) }
{
    let mut verdict = Verdict::Unproved;
    let mut stage = 2;
    while stage <= asked.stages {
        match finding_of(alloc, views, asked, site, stage)? {
            Finding::Safe => return Ok(Verdict::Safe(stage)),
            Finding::AtLimit => verdict = with_limit(verdict, stage),
            Finding::Unproved => {}
        }
        stage += 1;
    }
    Ok(verdict)
}

/// The verdict so far, once a later stage comes to its limit: the first limit is the one that is told.
fn with_limit(verdict: Verdict, stage: u8) -> Verdict
    ensures { IsLimited verdict stage result }
{
    match verdict {
        Verdict::Safe(earlier) => Verdict::Safe(earlier),
        Verdict::Limit(earlier) => Verdict::Limit(earlier),
        Verdict::Unproved => Verdict::Limit(stage),
    }
}
