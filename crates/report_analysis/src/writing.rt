//! The text of a report, by the sites and their verdicts.

ghost use Rattle.std.specs.Prelude.{◌≡◌, ◌↔◌, All, Contains, IfOk, IsTrue, count_by, length};
ghost use Rattle.site_report.specs.declared.tracked_site.TrackedSite.{TrackedSite as RuleSite};
ghost use Rattle.site_report.specs.Sites.{IsKnownSite};
ghost use Rattle.report_spec.specs.Reports.{is_limit, is_safe};
ghost use Rattle.report_analysis.specs.Written.{AreCounts, IsWritten, text_of_sites};

use crate::report::Report;
use crate::verdicts::Judged;
use program_model::program::Program;
use site_report::{TrackedSite, Verdict, summary_line, verdict_line};
use std::alloc::{AllocError, Global};

/// How many sites have each verdict.
#[derive(Clone, Copy)]
pub(crate) struct Counts {
    pub(crate) safe: u32,
    pub(crate) unproved: u32,
    pub(crate) limit: u32,
}

/// The report on the sites: the line of each, and the summary.
pub(crate) fn written(
    alloc: Global,
    program: &Program,
    sites: &[TrackedSite],
    judged: &Judged,
) -> Result<Report, AllocError>
    requires pairs { length judged.now.verdicts.items ≡ length sites.now }
    requires traces { length judged.now.traces.items ≡ length sites.now }
    requires known { (t : RuleSite) → Contains sites.now t → IsKnownSite program.now t }
    ensures { IfOk result (λ r. IsWritten program.now sites.now judged.now.verdicts.items judged.now.traces.items r.text.items r.all_safe) }
{
    let verdicts = judged.verdicts.as_slice();
    let mut text = site_lines(alloc, program, sites, judged)?;
    let counts = counts_of(verdicts)?;
    let summary = summary_line(alloc, counts.safe, counts.unproved, counts.limit)?;
    text.extend_from_slice(&summary)?;
    Ok(Report {
        text,
        all_safe: are_all_safe(verdicts),
    })
}

/// The lines of the sites, one after another, each with what is told below it.
fn site_lines(
    alloc: Global,
    program: &Program,
    sites: &[TrackedSite],
    judged: &Judged,
) -> Result<Vec<u8>, AllocError>
    requires pairs { length judged.now.verdicts.items ≡ length sites.now }
    requires traces { length judged.now.traces.items ≡ length sites.now }
    requires known { (t : RuleSite) → Contains sites.now t → IsKnownSite program.now t }
    ensures { IfOk result (λ text. text.items ≡ text_of_sites program.now sites.now judged.now.verdicts.items judged.now.traces.items) }
{
    let mut text = Vec::new(alloc);
    for (place, site) in sites.iter().enumerate() {
        let line = verdict_line(alloc, program, *site, judged.verdicts[place])?;
        text.extend_from_slice(&line)?;
        text.extend_from_slice(&judged.traces[place])?;
    }
    Ok(text)
}

/// How many sites have each verdict: it is as if memory ran out where there are too many for the summary.
fn counts_of(verdicts: &[Verdict]) -> Result<Counts, AllocError>
    ensures { IfOk result (AreCounts verdicts.now) }
{
    let all = number(verdicts.len())?;
    let safe = number(safe_count(verdicts))?;
    let limit = number(limit_count(verdicts))?;
    Ok(Counts {
        safe,
        unproved: all - safe - limit,
        limit,
    })
}

/// How many sites are safe.
fn safe_count(verdicts: &[Verdict]) -> usize
    ensures { result ≡ count_by is_safe verdicts.now }
{
    verdicts.iter().filter(|verdict| is_safe(**verdict)).count()
}

/// At how many sites a stage came to its limit.
fn limit_count(verdicts: &[Verdict]) -> usize
    ensures { result ≡ count_by is_limit verdicts.now }
{
    verdicts
        .iter()
        .filter(|verdict| is_limit(**verdict))
        .count()
}

/// Whether each site is safe.
pub fn are_all_safe(verdicts: &[Verdict]) -> bool
    ensures { IsTrue result ↔ All (λ verdict. IsTrue (is_safe verdict)) verdicts.now }
{
    verdicts.iter().all(|verdict| is_safe(*verdict))
}

/// Whether a stage proves a site safe.
fn is_safe(verdict: Verdict) -> bool
    ensures { result ≡ is_safe verdict }
{
    match verdict {
        Verdict::Safe(_) => true,
        Verdict::Unproved => false,
        Verdict::Limit(_) => false,
    }
}

/// Whether a stage came to its limit at a site.
fn is_limit(verdict: Verdict) -> bool
    ensures { result ≡ is_limit verdict }
{
    match verdict {
        Verdict::Safe(_) => false,
        Verdict::Unproved => false,
        Verdict::Limit(_) => true,
    }
}

/// A count as a number of 32 bits.
fn number(count: usize) -> Result<u32, AllocError>
    ensures { IfOk result (λ number. number ≡ count) }
{
    u32::try_from(count).map_err(|_| AllocError)
}
