//! Sites by number.

ghost use Rattle.std.specs.Prelude.{◌≡◌, ◌<◌, ◌^◌, [], ℕ, Contains, Some, length, slice_get, IfOk};
ghost use Rattle.site_numbers.specs.Added.{IsAdded};
ghost use Rattle.site_numbers.specs.Words.{site_of};
ghost use Rattle.least_sets.specs.Rules.{IsWithoutDoubles};

use crate::site_words::{SiteWords, site_words};
use indexmap::IndexSet;
use jvm_model::{Bytes, Site, SiteNo};
use std::alloc::{AllocError, Global};
use std::marker::Model;

/// Sites, each of which has a number. Contracts see the list of them, in the order of their numbers.
#[derive(Drop)]
pub struct SiteNumbers<'a> {
    keys: IndexSet<SiteWords<'a>>,
}

impl<'a> Model for SiteNumbers<'a> {
    ghost use Rattle.std.specs.Prelude.{List, ◌<◌, ◌^◌, length, map};
    ghost use Rattle.jvm_model.specs.declared.site.Site.{Site as OneSite};
    ghost use Rattle.site_numbers.specs.Words.{site_of as one_site};

    ghost Value = { List OneSite };

    ghost view = { λ n. map one_site n.keys.keys };

    ghost invariant = { λ n. length n.keys.keys < 2 ^ 32 };
}

/// The sites are numbered by 32 bits: so many are the most.
const MOST_SITES: usize = 0xffff_fffe;

impl<'a> SiteNumbers<'a> {
    /// No site. It takes no memory.
    pub fn new(alloc: Global) -> Self
        ensures { result ≡ [] }
    {
        SiteNumbers {
            keys: IndexSet::new(alloc),
        }
    }

    /// The number of a site, which gets the next one if it has none yet. It fails where memory runs out, or 32 bits do not number the sites.
    pub fn number(&mut self, site: &'a Site) -> Result<SiteNo, AllocError>
        ensures { IfOk result (λ number. IsAdded self.old self.new site.now number.0) }
    {
        if self.keys.len() >= MOST_SITES {
            return Err(AllocError);
        }
        let (number, _) = self.keys.insert_full(site_words(site))?;
        Ok(SiteNo(number as u32))
    }

    /// The number of a site that has one. It takes no memory.
    pub fn number_of(&self, site: &Site) -> SiteNo
        requires { Contains self.now site.now }
        ensures { slice_get self.now result.0 ≡ Some site.now }
    {
        let _count = self.keys.len();
        match self.keys.get_index_of(&site_words(site)) {
            Some(number) => SiteNo(number as u32),
            None => unreachable!(),
        }
    }

    /// No site has two numbers. It does nothing.
    pub fn apart(&self)
        ensures { IsWithoutDoubles self.now }
    {
        let _count = self.keys.len();
    }

    /// A list of the sites, in the order of their numbers.
    pub fn sites(&self, alloc: Global) -> Result<Vec<Site>, AllocError>
        ensures { IfOk result (λ sites. sites.items ≡ self.now) }
    {
        let mut sites = Vec::new(alloc);
        for key in self.keys.as_slice() {
            let site = copied(alloc, *key)?;
            sites.push(site)?;
        }
        Ok(sites)
    }
}

/// The site of words.
fn copied(alloc: Global, key: SiteWords<'_>) -> Result<Site, AllocError>
    ensures { IfOk result (λ site. site ≡ site_of key.entry) }
{
    let class = Bytes::from_vec(Vec::from_slice(alloc, key.class)?);
    Ok(Site {
        kind: key.kind,
        method: key.method,
        offset: key.offset,
        class,
    })
}
