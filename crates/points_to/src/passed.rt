//! The sites of a set, and those of a place that are passed on, as lists.

ghost use Rattle.std.specs.Prelude.{IfOk, OnOk};
ghost use Rattle.site_rows.specs.Rows.{fresh_at, held_at};
ghost use Rattle.points_to.specs.Sites.{AreListed, IsPushed};

use bit_rows::NumberSet;
use jvm_model::SiteNo;
use site_rows::SiteRow;
use std::alloc::{AllocError, Global};

/// The sites of a set that are not in another one.
pub(crate) fn sites_but(
    alloc: Global,
    set: &NumberSet,
    except: &NumberSet,
) -> Result<Vec<SiteNo>, AllocError>
    ensures { IfOk result (λ sites. AreListed set.now except.now sites.items) }
{
    set.well_formed();
    let mut sites = Vec::new(alloc);
    let mut low = 0;
    while let Some(number) = set.next_from(low) {
        push_unless(&mut sites, except, number)?;
        if number == u32::MAX {
            return Ok(sites);
        }
        low = number + 1;
    }
    Ok(sites)
}

/// The sites of a place that are passed on.
pub(crate) fn passed_sites(
    alloc: Global,
    rows: &Vec<SiteRow>,
    place: u32,
) -> Result<Vec<SiteNo>, AllocError>
    ensures { IfOk result (λ sites. AreListed (held_at rows.now.items place) (fresh_at rows.now.items place) sites.items) }
{
    if place as usize >= rows.len() {
        return Ok(Vec::new(alloc));
    }
    let row = &rows[place as usize];
    sites_but(alloc, &row.held, &row.fresh)
}

/// Adds a site, unless it is in the set.
fn push_unless(sites: &mut Vec<SiteNo>, except: &NumberSet, number: u32) -> Result<(), AllocError>
    ensures { OnOk result (IsPushed sites.old.items except.now number sites.new.items) }
{
    if !except.contains(number) {
        sites.push(SiteNo(number))?;
    }
    Ok(())
}
