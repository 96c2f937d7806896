//! The sites that places may hold, as lines list them.

ghost use Rattle.std.specs.Prelude.{◌≡◌, ◌↔◌, ◌<◌, ◌^◌, length, Contains, IfOk, OnOk};
ghost use Rattle.jvm_model.specs.declared.number.SiteNo.{SiteNo as HeldSiteNo};
ghost use Rattle.points_to_rules.specs.Places.{IsHolderIn};
ghost use Rattle.certificate_lines.specs.LineTexts.{holder_of};
ghost use Rattle.certificate_ground.specs.Held.{IsHeldBy, IsHeldIn};
ghost use Rattle.certificate_ground.specs.Listed.{holder_sites, named_sites};
ghost use Rattle.certificate_ground.specs.Pairs.{AddsPairs, ArePairs, IsJust};
ghost use Rattle.certificate_ground.specs.Sites.{AreNumbered, HasAll};
ghost use Rattle.certificate_ground.specs.Targets.{IsHeldAt};

use certificate_lines::{Holder, Line};
use grouped_lists::Groups;
use indexmap::IndexSet;
use jvm_model::SiteNo;
use points_to_rules::Place;
use site_numbers::SiteNumbers;
use slot_names::Variable;
use std::alloc::{AllocError, Global};

/// The places, which stand at their numbers, and the sites that each may hold, by its number.
#[derive(Drop)]
pub(crate) struct Held {
    pub(crate) places: IndexSet<Place>,
    pub(crate) sites: Groups<SiteNo>,
}

/// The places are numbered by 32 bits: so many are the most.
const MOST_PLACES: usize = 0xffff_fffe;

/// The pairs of a place and a site that lines list. It fails where memory runs out, or 32 bits do not number the places.
pub(crate) fn held_of(
    alloc: Global,
    lines: &[Line],
    sites: &SiteNumbers<'_>,
) -> Result<Held, AllocError>
    requires { AreNumbered lines.now sites.now }
    ensures pairs { IfOk result (λ held. ArePairs (IsHeldIn sites.now lines.now) held.places.keys held.sites.groups.items) }
    ensures few { IfOk result (λ held. length held.places.keys < 2 ^ 32) }
{
    let mut held = Held {
        places: IndexSet::new(alloc),
        sites: Groups::new(alloc),
    };
    for line in lines {
        add_line(line, sites, &mut held)?;
    }
    Ok(held)
}

/// Adds the pair that a line lists, if it lists one.
fn add_line(line: &Line, sites: &SiteNumbers<'_>, held: &mut Held) -> Result<(), AllocError>
    requires named { HasAll (named_sites line.now) sites.now }
    requires few { length held.old.places.keys < 2 ^ 32 }
    ensures pairs { OnOk result (AddsPairs (IsHeldBy sites.now line.now) held.old.places.keys held.old.sites.groups.items held.new.places.keys held.new.sites.groups.items) }
    ensures few { OnOk result (length held.new.places.keys < 2 ^ 32) }
{
    let Line::PointsTo { holder, site } = line else {
        return Ok(());
    };
    sites.apart();
    let place = place_of(holder, sites);
    add_pair(held, place, sites.number_of(site))
}

/// The place that stands for a holder.
fn place_of(holder: &Holder, sites: &SiteNumbers<'_>) -> Place
    requires { HasAll (holder_sites holder.now) sites.now }
    ensures { IsHolderIn sites.now result (holder_of holder.now) }
{
    match holder {
        Holder::Variable(variable) => Place::Variable(*variable),
        Holder::Field(site, field) => Place::Field(sites.number_of(site), *field),
        Holder::Elements(site) => Place::Elements(sites.number_of(site)),
        Holder::Static(field) => Place::Static(*field),
        Holder::Kept => Place::Kept,
        Holder::Returned(method) => Place::Returned(*method),
        Holder::Thrown(method) => Place::Thrown(*method),
    }
}

/// Adds a site to those that a place may hold.
fn add_pair(held: &mut Held, place: Place, site: SiteNo) -> Result<(), AllocError>
    ensures pairs { OnOk result (AddsPairs (IsJust place site) held.old.places.keys held.old.sites.groups.items held.new.places.keys held.new.sites.groups.items) }
    ensures few { OnOk result (length held.new.places.keys < 2 ^ 32) }
{
    if held.places.len() >= MOST_PLACES {
        return Err(AllocError);
    }
    let (number, _) = held.places.insert_full(place)?;
    held.sites.add_at(number, site)
}

impl Held {
    /// The sites that a variable may hold.
    pub(crate) fn at(&self, variable: Variable) -> &[SiteNo]
        ensures { (site : HeldSiteNo) → Contains result.now site ↔ IsHeldAt self.now variable site }
    {
        // The length tells that no place stands twice.
        let _count = self.places.len();
        match self.places.get_index_of(&Place::Variable(variable)) {
            Some(number) => self.sites.at(number),
            None => &[],
        }
    }
}
