//! What a site is looked up by.

ghost use Rattle.std.specs.Prelude.{◌≡◌};
ghost use Rattle.site_numbers.specs.Words.{site_of};

use jvm_model::{MethodNo, Site, SiteKind};

/// What a site is, with its class by reference, so that it is copied.
#[derive(Clone, Copy, PartialEq, Eq, Hash)]
pub(crate) struct SiteWords<'a> {
    pub(crate) kind: SiteKind,
    pub(crate) method: Option<MethodNo>,
    pub(crate) offset: u32,
    pub(crate) class: &'a [u8],
}

/// What a site is.
pub(crate) fn site_words(site: &Site) -> SiteWords<'_>
    ensures { site_of result ≡ site.now }
{
    SiteWords {
        kind: site.kind,
        method: site.method,
        offset: site.offset,
        class: site.class.as_slice(),
    }
}
