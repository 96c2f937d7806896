//! The sites of rows, as lists by place.

ghost use Rattle.std.specs.Prelude.{OnOk};
ghost use Rattle.call_graph.specs.Rows.{AddsRows, AddsSites};

use bit_rows::NumberSet;
use grouped_lists::Groups;
use jvm_model::SiteNo;
use site_rows::SiteRow;
use std::alloc::AllocError;

/// Adds the sites of each row to those of its place.
pub(crate) fn add_rows(sites: &mut Groups<SiteNo>, rows: &Vec<SiteRow>) -> Result<(), AllocError>
    ensures { OnOk result (AddsRows rows.now.items sites.old.groups.items sites.new.groups.items) }
{
    for place in 0..rows.len() {
        let row = &rows[place];
        add_sites(sites, place, &row.held)?;
    }
    Ok(())
}

/// Adds the sites of a set to those of a place.
fn add_sites(sites: &mut Groups<SiteNo>, place: usize, set: &NumberSet) -> Result<(), AllocError>
    ensures { OnOk result (AddsSites set.now place sites.old.groups.items sites.new.groups.items) }
{
    set.well_formed();
    let mut low = 0;
    while let Some(number) = set.next_from(low) {
        sites.add_at(place, SiteNo(number))?;
        if number == u32::MAX {
            return Ok(());
        }
        low = number + 1;
    }
    Ok(())
}
