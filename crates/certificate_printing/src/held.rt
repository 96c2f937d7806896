//! The lines of what places may hold.

ghost use Rattle.std.specs.Prelude.{◌≡◌, ◌<◌, length, Some, slice_get, IfOk, OnOk};
ghost use Rattle.jvm_model.specs.declared.site.Site.{Site as RuleSite};
ghost use Rattle.points_to_rules.specs.Facts.{Holder as RuleHolder};
ghost use Rattle.ground.specs.Added.{AreAdded};
ghost use Rattle.certificate_lines.specs.declared.line.Line.TheVariants.{PointsTo};
ghost use Rattle.certificate_printing.specs.Collected.{IsHeldLine, OfBelow, listed_holder};

use crate::copies::site_copied;
use crate::listed::add_line;
use certificate_lines::{Holder, Line};
use ground::Ground;
use jvm_model::SiteNo;
use points_to_rules::{Place, PlaceNo};
use std::alloc::{AllocError, Global};

/// Adds the lines of all places. It is as if memory ran out where 32 bits do not count the places.
pub(crate) fn add_held(
    alloc: Global,
    ground: &Ground<'_>,
    lines: &mut Vec<Line>,
) -> Result<(), AllocError>
    ensures { OnOk result (AreAdded (OfBelow (IsHeldLine ground.now) (length ground.now.holders)) lines.old.items lines.new.items) }
{
    let count = u32::try_from(ground.place_count()).map_err(|_| AllocError)?;
    add_places(alloc, ground, count, lines)
}

/// Adds the lines of this many places, which are all.
fn add_places(
    alloc: Global,
    ground: &Ground<'_>,
    count: u32,
    lines: &mut Vec<Line>,
) -> Result<(), AllocError>
    requires { count ≡ length ground.now.holders }
    ensures { OnOk result (AreAdded (OfBelow (IsHeldLine ground.now) (length ground.now.holders)) lines.old.items lines.new.items) }
{
    for place in 0..count {
        add_place(alloc, ground, PlaceNo(place), lines)?;
    }
    Ok(())
}

/// Adds a line for each site whose objects a place may hold.
fn add_place(
    alloc: Global,
    ground: &Ground<'_>,
    place: PlaceNo,
    lines: &mut Vec<Line>,
) -> Result<(), AllocError>
    requires { place.0 < length ground.now.holders }
    ensures { OnOk result (AreAdded (IsHeldLine ground.now place.0) lines.old.items lines.new.items) }
{
    for site in ground.sites_at(place) {
        add_line(held_line(alloc, ground, place, *site)?, lines)?;
    }
    Ok(())
}

/// The line that tells that a place may hold objects of a site.
fn held_line(
    alloc: Global,
    ground: &Ground<'_>,
    place: PlaceNo,
    site: SiteNo,
) -> Result<Line, AllocError>
    requires place { place.0 < length ground.now.holders }
    requires site { site.0 < length ground.now.sites }
    ensures { IfOk result (λ line. (h : RuleHolder) (s : RuleSite) → slice_get ground.now.holders place.0 ≡ Some h → slice_get ground.now.sites site.0 ≡ Some s
        → line ≡ PointsTo (listed_holder h) s) }
{
    Ok(Line::PointsTo {
        holder: holder_at(alloc, ground, place)?,
        site: site_copied(alloc, ground.site(site))?,
    })
}

/// The holder that a place stands for.
fn holder_at(alloc: Global, ground: &Ground<'_>, place: PlaceNo) -> Result<Holder, AllocError>
    requires { place.0 < length ground.now.holders }
    ensures { IfOk result (λ holder. (h : RuleHolder) → slice_get ground.now.holders place.0 ≡ Some h → holder ≡ listed_holder h) }
{
    match ground.place(place) {
        Place::Variable(variable) => Ok(Holder::Variable(variable)),
        Place::Field(site, field) => {
            Ok(Holder::Field(site_copied(alloc, ground.site(site))?, field))
        }
        Place::Elements(site) => Ok(Holder::Elements(site_copied(alloc, ground.site(site))?)),
        Place::Static(field) => Ok(Holder::Static(field)),
        Place::Kept => Ok(Holder::Kept),
        Place::Returned(method) => Ok(Holder::Returned(method)),
        Place::Thrown(method) => Ok(Holder::Thrown(method)),
    }
}
