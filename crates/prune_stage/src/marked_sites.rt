//! At which sites events are marked: at all those that are tracked, or at one.

ghost use Rattle.std.specs.Prelude.{◌≡◌, ◌↔◌, ◌<◌, ℕ, length, Some, slice_get};
ghost use Rattle.ground.specs.Ordered.{DoAscend, site_number};
ghost use Rattle.prune_stage.specs.Marks.{AreMarked, OfOne, SiteMarks};
ghost use Rattle.prune_stage.specs.Places.{AreBelow, StandsAlone, StandsInTable};

use crate::event_set::EventSet;
use ground::is_among;
use jvm_model::SiteNo;

/// Which sites have their events marked, and at which place the events of each.
pub(crate) trait Marking {
    // The events of the site of the number are marked at the place.
    ghost stands: { Self → ℕ → ℕ → Type 0 };

    /// Marks an event at the sites that have a place. The sites stand in the order of their numbers.
    fn mark(&self, found: &[SiteNo], event: usize, sets: &mut [EventSet])
        requires event { event < 32 }
        requires below { AreBelow (length sets.old) (stands self.now) }
        requires ascend { DoAscend site_number found.now }
        ensures { AreMarked (OfOne (SiteMarks (stands self.now) event) found.now) sets.old sets.new };
}

/// The place of each site, by its number, if it has one.
#[derive(Drop)]
pub(crate) struct Table {
    pub(crate) places: Vec<Option<usize>>,
}

impl Marking for Table {
    ghost use Rattle.prune_stage.specs.Places.{StandsInTable};

    ghost stands = { λ table. StandsInTable table.places.items };

    fn mark(&self, found: &[SiteNo], event: usize, sets: &mut [EventSet]) {
        mark_each(found, &self.places, event, sets);
    }
}

/// One site, with the first place.
#[derive(Clone, Copy)]
pub(crate) struct Only {
    pub(crate) site: SiteNo,
}

impl Marking for Only {
    ghost use Rattle.prune_stage.specs.Places.{StandsAlone};

    ghost stands = { λ only. StandsAlone only.site };

    fn mark(&self, found: &[SiteNo], event: usize, sets: &mut [EventSet]) {
        if is_among(found, self.site) {
            mark_at(0, event, sets);
        }
    }
}

/// Marks an event at the sites that have a place.
fn mark_each(found: &[SiteNo], places: &[Option<usize>], event: usize, sets: &mut [EventSet])
    requires event { event < 32 }
    requires below { AreBelow (length sets.old) (StandsInTable places.now) }
    ensures { AreMarked (OfOne (SiteMarks (StandsInTable places.now) event) found.now) sets.old sets.new }
{
    for site in found {
        mark_site(*site, places, event, sets);
    }
}

/// Marks an event at a site, if it has a place.
fn mark_site(site: SiteNo, places: &[Option<usize>], event: usize, sets: &mut [EventSet])
    requires event { event < 32 }
    requires below { AreBelow (length sets.old) (StandsInTable places.now) }
    ensures { AreMarked (SiteMarks (StandsInTable places.now) event site) sets.old sets.new }
{
    match place_at(places, site) {
        Some(place) => mark_at(place, event, sets),
        None => {}
    }
}

/// The place of a site, if it has one.
fn place_at(places: &[Option<usize>], site: SiteNo) -> Option<usize>
    ensures { (place : ℕ) → (result ≡ Some place) ↔ (slice_get places.now site.0 ≡ Some (Some place)) }
{
    places.get(site.0 as usize).copied().flatten()
}

/// Marks an event at a place.
fn mark_at(place: usize, event: usize, sets: &mut [EventSet])
    requires event { event < 32 }
    requires place { place < length sets.old }
    ensures { AreMarked (λ i e. (i ≡ place) × (e ≡ event)) sets.old sets.new }
{
    let set = &mut sets[place];
    set.add(event);
}
