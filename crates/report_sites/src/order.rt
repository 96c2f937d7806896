//! Sites in the order of a report.

ghost use Rattle.site_report.specs.Sites.{AreInOrder};
ghost use Rattle.report_sites.specs.Found.{HaveSame};

use site_report::TrackedSite;

/// The sites in the order of a report, each once.
pub(crate) fn in_order(sites: Vec<TrackedSite>) -> Vec<TrackedSite>
    ensures same { HaveSame sites.items result.items }
    ensures order { AreInOrder result.items }
{
    let mut ordered = sites;
    ordered.sort_unstable();
    ordered.dedup();
    ordered
}
