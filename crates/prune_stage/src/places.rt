//! The places of the sites of a ground among those that are tracked.

ghost use Rattle.std.specs.Prelude.{◌≡◌, ◌↔◌, ℕ, Some, length, slice_get, Contains, IfOk};
ghost use Rattle.program_model.specs.Numbers.{IsClassNumber};
ghost use Rattle.site_report.specs.Sites.{AreInOrder};
ghost use Rattle.prune_stage.specs.Places.{ArePlaces, IsPlaceIn, IsTracking};

use ground::Ground;
use jvm_model::{Site, SiteNo};
use program_model::program::Program;
use site_report::TrackedSite;
use std::alloc::{AllocError, Global};

/// For each site of the ground, by its number, its place among those that are tracked, if it is one of them.
pub fn site_places(
    alloc: Global,
    program: &Program,
    ground: &Ground<'_>,
    sites: &[TrackedSite],
) -> Result<Vec<Option<usize>>, AllocError>
    requires order { AreInOrder sites.now }
    requires known { (t : TrackedSite) → Contains sites.now t → IsClassNumber program.now t.class.0 }
    ensures { IfOk result (λ places. ArePlaces program.now ground.now.sites sites.now places.items) }
{
    let count = site_count(ground)?;
    let mut places = Vec::new(alloc);
    for number in 0..count {
        places.push(place_of(program, ground.site(SiteNo(number)), sites))?;
    }
    Ok(places)
}

/// How many sites there are, in 32 bits, which each number of a site has.
fn site_count(ground: &Ground<'_>) -> Result<u32, AllocError>
    ensures { IfOk result (λ count. count ≡ length ground.now.sites) }
{
    u32::try_from(ground.site_count()).map_err(|_| AllocError)
}

/// The place of a site among those that are tracked.
fn place_of(program: &Program, site: &Site, sites: &[TrackedSite]) -> Option<usize>
    requires order { AreInOrder sites.now }
    requires known { (t : TrackedSite) → Contains sites.now t → IsClassNumber program.now t.class.0 }
    ensures { IsPlaceIn program.now sites.now site.now result }
{
    match tracked_site(program, site) {
        Some(tracked) => place_in_order(sites, &tracked),
        None => None,
    }
}

/// A site with the number of its class, if that is a class of the program.
fn tracked_site(program: &Program, site: &Site) -> Option<TrackedSite>
    ensures { IsTracking program.now site.now result }
{
    program.well_formed();
    match program.find(site.class.as_slice()) {
        Some(class) => Some(TrackedSite {
            method: site.method,
            offset: site.offset,
            class,
            kind: site.kind,
        }),
        None => None,
    }
}

/// The place of a site in the order of a report.
fn place_in_order(sites: &[TrackedSite], site: &TrackedSite) -> Option<usize>
    requires { AreInOrder sites.now }
    ensures { (place : ℕ) → (result ≡ Some place) ↔ (slice_get sites.now place ≡ Some site.now) }
{
    match sites.binary_search(site) {
        Ok(place) => Some(place),
        Err(_) => None,
    }
}
