//! Rows by the numbers of their places: what stands at a place, and how there come to be rows for more places.

ghost use Rattle.std.specs.Prelude.{◌≡◌, ◌↔◌, ◌<◌, [], IsTrue, length, OnOk};
ghost use Rattle.bit_rows.specs.declared.set.NumberSet.TheVariants.{Empty};
ghost use Rattle.bit_rows.specs.Sets.{IsIn, numbers_of};
ghost use Rattle.site_rows.specs.Rows.{HasSameRows, PassesOn, fresh_at, held_at};

use crate::row::SiteRow;
use bit_rows::NumberSet;
use std::alloc::AllocError;

/// Whether a place has a site.
pub(crate) fn has_site(rows: &Vec<SiteRow>, place: u32, site: u32) -> bool
    ensures { IsTrue result ↔ IsIn (held_at rows.now.items place) site }
{
    match rows.get(place as usize) {
        Some(row) => row.held.contains(site),
        None => false,
    }
}

/// Whether a place has fresh sites.
pub(crate) fn has_fresh(rows: &Vec<SiteRow>, place: u32) -> bool
    ensures some { IsTrue result ↔ (fresh_at rows.now.items place ≡ Empty → ⊥) }
    ensures listed { IsTrue result → numbers_of (fresh_at rows.now.items place) ≡ [] → ⊥ }
{
    match rows.get(place as usize) {
        Some(row) => !row.fresh.is_empty(),
        None => false,
    }
}

/// Makes a row for each place up to this one.
pub(crate) fn reach(rows: &mut Vec<SiteRow>, place: usize) -> Result<(), AllocError>
    ensures same { HasSameRows rows.old.items rows.new.items }
    ensures room { OnOk result (place < length rows.new.items) }
{
    while rows.len() <= place {
        rows.push(SiteRow::new())?;
    }
    Ok(())
}

/// Takes the fresh sites of a place.
pub(crate) fn take_fresh(rows: &mut Vec<SiteRow>, place: u32) -> NumberSet
    ensures given { result ≡ fresh_at rows.old.items place }
    ensures passes { PassesOn rows.old.items rows.new.items place }
{
    if place as usize >= rows.len() {
        return NumberSet::new();
    }
    let row = &mut rows[place as usize];
    row.fresh.take()
}
