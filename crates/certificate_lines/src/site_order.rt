//! The order of sites.

ghost use Rattle.std.specs.Prelude.{◌≡◌, option_map};
ghost use Rattle.std.specs.Option.{option_cmp};
ghost use Rattle.std.specs.Ordering.{nat_cmp};
ghost use Rattle.site_report.specs.Sites.{kind_rank, method_rank};
ghost use Rattle.certificate_lines.specs.LineOrder.{bytes_cmp, site_cmp};

use jvm_model::{MethodNo, Site, SiteKind};
use std::cmp::Ordering;

/// How a site stands to another: by what allocates, then by the method, the offset and the class. It takes no memory.
pub fn compare_sites(one: &Site, other: &Site) -> Ordering
    ensures { result ≡ site_cmp one.now other.now }
{
    let by_kind = kind_rank(one.kind).cmp(&kind_rank(other.kind));
    let by_method = compare_methods(one.method, other.method);
    let by_offset = one.offset.cmp(&other.offset);
    let by_class = compare_bytes(one.class.as_slice(), other.class.as_slice());
    by_kind.then(by_method.then(by_offset.then(by_class)))
}

/// No site comes before each.
pub(crate) fn compare_optional_sites(one: Option<&Site>, other: Option<&Site>) -> Ordering
    ensures { result ≡ option_cmp site_cmp (option_map (λ s. s.now) one.entry) (option_map (λ s. s.now) other.entry) }
{
    match one {
        None => match other {
            None => Ordering::Equal,
            Some(_) => Ordering::Less,
        },
        Some(site) => match other {
            None => Ordering::Greater,
            Some(also) => compare_sites(site, also),
        },
    }
}

/// The start of the program comes before its methods, and these by their numbers.
pub fn compare_methods(one: Option<MethodNo>, other: Option<MethodNo>) -> Ordering
    ensures { result ≡ nat_cmp (method_rank one) (method_rank other) }
{
    method_rank(one).cmp(&method_rank(other))
}

/// The first bytes that differ decide, and a name comes before those that go on behind it.
pub(crate) fn compare_bytes(one: &[u8], other: &[u8]) -> Ordering
    ensures { result ≡ bytes_cmp one.now other.now }
{
    one.cmp(other)
}

/// The rank of a method: 0 for the start of the program, and one more than the number for each other.
fn method_rank(method: Option<MethodNo>) -> u64
    ensures { result ≡ method_rank method }
{
    match method {
        None => 0,
        Some(number) => u64::from(number.0) + 1,
    }
}

/// The rank of a kind, in their order.
fn kind_rank(kind: SiteKind) -> u8
    ensures { result ≡ kind_rank kind }
{
    match kind {
        SiteKind::Boot => 0,
        SiteKind::New => 1,
        SiteKind::Result => 2,
        SiteKind::Thrown => 3,
    }
}
