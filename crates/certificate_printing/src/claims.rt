//! The lines of the sites that are safe: the claim of each, and its path edges.

ghost use Rattle.std.specs.Prelude.{◌≡◌, length, OnOk};
ghost use Rattle.program_model.specs.Numbers.{IsClassNumber};
ghost use Rattle.ground.specs.Added.{AreAdded};
ghost use Rattle.report_analysis.specs.Claims.{AreJudgedSites};
ghost use Rattle.report_analysis.specs.Numbers.{IsNumberOf};
ghost use Rattle.report_analysis.specs.Stages.{asked_of};
ghost use Rattle.certificate_printing.specs.Analysed.{HasVerdict, IsAnalysed, IsClaimLine, IsSafeLine, IsSafeSite, IsVerdictLine, gives_in, site_of, subject_in};
ghost use Rattle.certificate_printing.specs.Collected.{OfBelow};

use crate::copies::named_site;
use crate::edges::add_edges;
use crate::listed::add_line;
use certificate_lines::Line;
use ground::Ground;
use ground_views::GroundViews;
use jvm_model::{Automaton, SiteNo};
use report_analysis::{JudgedSites, ReportStages, SafeSite};
use site_report::{TrackedSite, Verdict};
use std::alloc::{AllocError, Global};

/// An analysis with the views of its ground, a property, and what is asked.
#[derive(Clone, Copy)]
pub(crate) struct Analysed<'a, 'p> {
    pub(crate) views: &'a GroundViews<'p>,
    pub(crate) ground: &'a Ground<'p>,
    pub(crate) automaton: &'a Automaton,
    pub(crate) asked: ReportStages,
}

/// Adds the lines of all sites that are safe.
pub(crate) fn add_claims(
    alloc: Global,
    of: Analysed<'_, '_>,
    judged: &JudgedSites,
    lines: &mut Vec<Line>,
) -> Result<(), AllocError>
    requires analysed { IsAnalysed of }
    requires judged { AreJudgedSites (subject_in of) (gives_in of) of.ground.now (asked_of of.asked) judged.now }
    ensures { OnOk result (AreAdded (OfBelow (IsClaimLine of.entry judged.now) (length judged.now.sites.items)) lines.old.items lines.new.items) }
{
    for place in 0..judged.sites.len() {
        add_verdict(
            alloc,
            of,
            judged.sites[place],
            judged.verdicts[place],
            judged.numbers[place],
            lines,
        )?;
    }
    Ok(())
}

/// Adds the lines of a site, by its verdict, and by its number in the ground, if it has one.
fn add_verdict(
    alloc: Global,
    of: Analysed<'_, '_>,
    site: TrackedSite,
    verdict: Verdict,
    number: Option<SiteNo>,
    lines: &mut Vec<Line>,
) -> Result<(), AllocError>
    requires analysed { IsAnalysed of }
    requires class { IsClassNumber of.ground.now.program site.class.0 }
    requires verdict { HasVerdict of site verdict }
    requires number { IsNumberOf of.ground.now (site_of of site) number }
    ensures { OnOk result (AreAdded (IsVerdictLine of.entry site verdict) lines.old.items lines.new.items) }
{
    match verdict {
        Verdict::Safe(stage) => add_safe(
            alloc,
            of,
            SafeSite {
                site,
                number,
                stage,
            },
            lines,
        ),
        Verdict::Unproved => Ok(()),
        Verdict::Limit(_) => Ok(()),
    }
}

/// Adds the claim of a site that is safe, and the lines of its path edges, where the stage that proves it has such.
fn add_safe(
    alloc: Global,
    of: Analysed<'_, '_>,
    safe: SafeSite,
    lines: &mut Vec<Line>,
) -> Result<(), AllocError>
    requires analysed { IsAnalysed of }
    requires class { IsClassNumber of.ground.now.program safe.site.class.0 }
    requires safe { IsSafeSite of safe }
    ensures { OnOk result (AreAdded (IsSafeLine of.entry safe.site safe.stage) lines.old.items lines.new.items) }
{
    let site = named_site(alloc, of.ground.program(), safe.site)?;
    add_line(
        Line::Claim {
            stage: safe.stage,
            site,
        },
        lines,
    )?;
    if safe.stage == 1 {
        return Ok(());
    }
    add_edges(alloc, of, safe, lines)
}
