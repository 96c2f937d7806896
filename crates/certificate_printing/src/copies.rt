//! Copies of names and of sites, which lines own.

ghost use Rattle.std.specs.Prelude.{◌≡◌, IfOk};
ghost use Rattle.program_model.specs.Numbers.{IsClassNumber};
ghost use Rattle.site_report.specs.Sites.{site_in};

use jvm_model::{Bytes, Event, Sequence, Site};
use program_model::program::Program;
use site_report::TrackedSite;
use std::alloc::{AllocError, Global};

/// A copy of bytes.
pub(crate) fn bytes_copied(alloc: Global, bytes: &[u8]) -> Result<Bytes, AllocError>
    ensures { IfOk result (λ copy. copy ≡ bytes.now) }
{
    Ok(Sequence::from_vec(Vec::from_slice(alloc, bytes)?))
}

/// A copy of a site.
pub(crate) fn site_copied(alloc: Global, site: &Site) -> Result<Site, AllocError>
    ensures { IfOk result (λ copy. copy ≡ site.now) }
{
    Ok(Site {
        kind: site.kind,
        method: site.method,
        offset: site.offset,
        class: bytes_copied(alloc, site.class.as_slice())?,
    })
}

/// The site of a tracked site, with its class by name.
pub(crate) fn named_site(
    alloc: Global,
    program: &Program,
    site: TrackedSite,
) -> Result<Site, AllocError>
    requires { IsClassNumber program.now site.class.0 }
    ensures { IfOk result (λ named. named ≡ site_in program.now site) }
{
    Ok(Site {
        kind: site.kind,
        method: site.method,
        offset: site.offset,
        class: bytes_copied(alloc, program.class_name(site.class))?,
    })
}

/// A copy of an event.
pub(crate) fn event_copied(alloc: Global, event: &Event) -> Result<Event, AllocError>
    ensures { IfOk result (λ copy. copy ≡ event.now) }
{
    Ok(Event {
        name: bytes_copied(alloc, event.name.as_slice())?,
        descriptor: bytes_copied(alloc, event.descriptor.as_slice())?,
        next: bytes_copied(alloc, event.next.as_slice())?,
    })
}
