//! The tracked site of a class, if its objects are tracked.

ghost use Rattle.std.specs.Prelude.{◌≡◌, Some, OnOk};
ghost use Rattle.program_model.specs.Numbers.{IsClassNumber};
ghost use Rattle.ground.specs.Added.{AreAdded};
ghost use Rattle.report_sites.specs.Found.{IsOnlySite, IsTrackedAs};

use jvm_model::{ClassNo, SiteKind};
use op_model::NodeRef;
use program_model::program::Program;
use site_report::TrackedSite;
use std::alloc::AllocError;

/// The class whose objects are tracked, with those of the classes below it.
#[derive(Clone, Copy)]
pub(crate) struct TrackedClass<'a> {
    pub(crate) program: &'a Program,
    pub(crate) upper: ClassNo,
}

/// The tracked site of the objects of a class, if that is the upper class or one below it.
fn site_below(
    wanted: &TrackedClass<'_>,
    kind: SiteKind,
    at: NodeRef,
    class: &[u8],
) -> Option<TrackedSite>
    requires { IsClassNumber wanted.now.program.now wanted.now.upper.0 }
    ensures { IsOnlySite wanted.now.program.now wanted.now.upper (record { kind = kind; method = at.method; offset = at.offset; class = class.now }) result }
{
    let program = wanted.program;
    program.well_formed();
    match program.find(class) {
        Some(number) => {
            if !program.is_at_or_above(number, wanted.upper) {
                return None;
            }
            Some(TrackedSite {
                method: at.method,
                offset: at.offset,
                class: number,
                kind,
            })
        }
        None => None,
    }
}

/// Adds a site, if there is one.
fn add_site(site: Option<TrackedSite>, sites: &mut Vec<TrackedSite>) -> Result<(), AllocError>
    ensures { OnOk result (AreAdded (λ t. site ≡ Some t) sites.old.items sites.new.items) }
{
    match site {
        Some(one) => {
            sites.push(one)?;
            Ok(())
        }
        None => Ok(()),
    }
}

/// Adds the tracked site of the objects of a class, if that is the upper class or one below it.
pub(crate) fn add_class(
    wanted: &TrackedClass<'_>,
    kind: SiteKind,
    at: NodeRef,
    class: &[u8],
    sites: &mut Vec<TrackedSite>,
) -> Result<(), AllocError>
    requires { IsClassNumber wanted.now.program.now wanted.now.upper.0 }
    ensures { OnOk result (AreAdded (IsTrackedAs wanted.now.program.now wanted.now.upper (record { kind = kind; method = at.method; offset = at.offset; class = class.now }))
        sites.old.items sites.new.items) }
{
    let site = site_below(wanted, kind, at, class);
    add_site(site, sites)
}
