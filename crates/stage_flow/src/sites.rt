//! Whether two sites are the same.

ghost use Rattle.std.specs.Prelude.{◌≡◌, [], ◌∷◌};
ghost use Rattle.std.specs.Option.{option_map_or};
ghost use Rattle.std.specs.Str.{bytes_eq};
ghost use Rattle.jvm_model.specs.declared.number.MethodNo.{MethodNo as Number};
ghost use Rattle.stage_transfer.specs.Settings.{number_of_kind, same_site};

use jvm_model::{MethodNo, Site, SiteKind};

/// Whether the two are the same site.
pub(crate) fn is_same_site(first: &Site, second: &Site) -> bool
    ensures { result ≡ same_site first.now second.now }
{
    is_site_at(
        first.kind,
        first.method,
        first.offset,
        first.class.as_slice(),
        second,
    )
}

/// Whether a site is the one of a kind, at an offset of a method, for objects of a class.
pub fn is_site_at(
    kind: SiteKind,
    method: Option<MethodNo>,
    offset: u32,
    class: &[u8],
    site: &Site,
) -> bool
    ensures { result ≡ same_site (record { kind = kind; method = method; offset = offset; class = class.now }) site.now }
{
    number_of_kind(kind) == number_of_kind(site.kind)
        && is_same_method(method, site.method)
        && offset == site.offset
        && class == site.class.as_slice()
}

/// The number that tells the kind.
fn number_of_kind(kind: SiteKind) -> u8
    ensures { result ≡ number_of_kind kind }
{
    match kind {
        SiteKind::Boot => 0,
        SiteKind::New => 1,
        SiteKind::Result => 2,
        SiteKind::Thrown => 3,
    }
}

/// Whether the two are the same method, or none.
fn is_same_method(first: Option<MethodNo>, second: Option<MethodNo>) -> bool
    ensures { result ≡ bytes_eq (option_map_or (λ (m : Number). m.0 ∷ []) first []) (option_map_or (λ (m : Number). m.0 ∷ []) second []) }
{
    match first {
        None => second.is_none(),
        Some(first) => is_method(second, first),
    }
}

/// Whether there is a method, and it is this one.
fn is_method(own: Option<MethodNo>, method: MethodNo) -> bool
    ensures { result ≡ bytes_eq (method.0 ∷ []) (option_map_or (λ (m : Number). m.0 ∷ []) own []) }
{
    match own {
        None => false,
        Some(own) => method.0 == own.0,
    }
}
