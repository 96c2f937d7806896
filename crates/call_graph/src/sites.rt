//! The sites of the solver's tables, each with the name of its class.

ghost use Rattle.std.specs.Prelude.{◌≡◌, ◌<◌, ◌^◌, Some, length, slice_get, IfOk};
ghost use Rattle.jvm_model.specs.declared.site.Site.{Site as RuleSite};
ghost use Rattle.points_to_numbers.specs.Numbered.{IsNumbered};

use jvm_model::{Bytes, Site, SiteNo};
use points_to_numbers::Tables;
use std::alloc::{AllocError, Global};

/// The sites, in the order of their numbers.
pub(crate) fn sites_of(alloc: Global, tables: &Tables) -> Result<Vec<Site>, AllocError>
    ensures { IfOk result (λ sites. sites.items ≡ tables.now.sites) }
{
    let count = site_count(tables);
    let mut sites = Vec::new(alloc);
    for number in 0..count {
        let site = site_at(alloc, tables, SiteNo(number))?;
        sites.push(site)?;
    }
    Ok(sites)
}

/// How many sites there are, in 32 bits, which each number of a site has.
fn site_count(tables: &Tables) -> u32
    ensures { result ≡ length tables.now.sites }
{
    tables.site_count() as u32
}

/// The site of a number.
fn site_at(alloc: Global, tables: &Tables, site: SiteNo) -> Result<Site, AllocError>
    requires { IsNumbered tables.now.sites site.0 }
    ensures { IfOk result (λ s. slice_get tables.now.sites site.0 ≡ Some s) }
{
    let key = tables.site_of(site);
    let class = Bytes::from_vec(Vec::from_slice(alloc, tables.name_of(key.class))?);
    Ok(Site {
        kind: key.kind,
        method: key.method,
        offset: key.offset,
        class,
    })
}
