//! Why sites are unproved: for each site the lines that tell it, if that is asked for.

ghost use Rattle.std.specs.Prelude.{◌≡◌, ◌≤◌, true, zip, IfOk};
ghost use Rattle.std.specs.List.{AllZip};
ghost use Rattle.jvm_model.specs.Automata.{IsAutomaton};
ghost use Rattle.ground_views.specs.Views.{AreViewsOf};
ghost use Rattle.report_spec.specs.Traces.{are_told};
ghost use Rattle.stage_verdicts.specs.LaterVerdicts.{IsAsked};
ghost use Rattle.report_analysis.specs.Judging.{IsKnown, IsToldBelowBy};
ghost use Rattle.report_analysis.specs.Later.{IsVerdictOf};
ghost use Rattle.report_analysis.specs.Numbers.{AreNumbers};

use ground_views::GroundViews;
use jvm_model::SiteNo;
use site_report::{TrackedSite, Verdict};
use stage_verdicts::{LaterStages, error_trace};
use std::alloc::{AllocError, Global};

/// A site with its verdict and its number in the ground.
#[derive(Clone, Copy)]
pub(crate) struct KnownSite {
    pub(crate) site: TrackedSite,
    pub(crate) verdict: Verdict,
    pub(crate) number: Option<SiteNo>,
}

/// Whether derivations are told: they are asked for, and the last stage is one of path edges.
pub(crate) fn are_told(trace: bool, stages: u8) -> bool
    ensures { result ≡ are_told trace stages }
{
    trace && stages >= 2
}

/// The lines that tell why a site is unproved, for each site.
pub(crate) fn each_trace(
    alloc: Global,
    views: &GroundViews<'_>,
    asked: LaterStages<'_, '_>,
    sites: &[TrackedSite],
    verdicts: &[Verdict],
    numbers: &[Option<SiteNo>],
) -> Result<Vec<Vec<u8>>, AllocError>
    requires asked { IsAsked asked }
    requires automaton { IsAutomaton asked.automaton.now }
    requires views { AreViewsOf asked.ground.now asked.entry views.now }
    requires two { 2 ≤ asked.stages }
    requires verdicts { AllZip (IsVerdictOf asked) sites.now verdicts.now }
    requires numbers { AreNumbers asked.ground.now sites.now numbers.now }
    ensures { IfOk result (λ traces. AllZip (IsToldBelowBy asked.entry true) (zip sites.now verdicts.now) traces.items) }
{
    let mut traces = Vec::new(alloc);
    for place in 0..sites.len() {
        let known = KnownSite {
            site: sites[place],
            verdict: verdicts[place],
            number: numbers[place],
        };
        traces.push(trace_of(alloc, views, asked, known)?)?;
    }
    Ok(traces)
}

/// The lines that tell why a site is unproved; none where it is not.
fn trace_of(
    alloc: Global,
    views: &GroundViews<'_>,
    asked: LaterStages<'_, '_>,
    known: KnownSite,
) -> Result<Vec<u8>, AllocError>
    requires asked { IsAsked asked }
    requires automaton { IsAutomaton asked.automaton.now }
    requires views { AreViewsOf asked.ground.now asked.entry views.now }
    requires two { 2 ≤ asked.stages }
    requires known { IsKnown asked known }
    ensures { IfOk result (IsToldBelowBy asked.entry true (known.site, known.verdict)) }
{
    match known.verdict {
        Verdict::Safe(_) => Ok(Vec::new(alloc)),
        Verdict::Limit(_) => Ok(Vec::new(alloc)),
        Verdict::Unproved => match known.number {
            Some(site) => error_trace(alloc, views, asked, site),
            None => {
                asked.ground.well_formed();
                unreachable!()
            }
        },
    }
}
