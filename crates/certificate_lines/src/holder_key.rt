//! The order of holders.

ghost use Rattle.std.specs.Prelude.{◌≡◌, Some, None};
ghost use Rattle.points_to_rules.specs.Facts.{variable as held_variable};
ghost use Rattle.certificate_lines.specs.LineOrder.{holder_cmp, holder_key, holder_key_cmp};
ghost use Rattle.certificate_lines.specs.LineTexts.{holder_of};
ghost use Rattle.certificate_lines.specs.Told.{told_holder};

use crate::line::Holder;
use crate::site_order::compare_optional_sites;
use jvm_model::Site;
use slot_names::Variable;
use std::cmp::Ordering;

/// What a holder is ordered by: its kind, the site and the numbers in its words. Where there are fewer, a number is 0.
#[derive(Clone, Copy)]
pub(crate) struct HolderWords<'h> {
    kind: u8,
    site: Option<&'h Site>,
    first: u32,
    second: u32,
    third: u32,
}

/// By the kinds, and then by the words.
pub(crate) fn compare_holders(one: &Holder, other: &Holder) -> Ordering
    ensures { result ≡ holder_cmp (holder_of one.now) (holder_of other.now) }
{
    compare_keys(&key_of(one), &key_of(other))
}

/// Compares two keys.
fn compare_keys(one: &HolderWords<'_>, other: &HolderWords<'_>) -> Ordering
    ensures { result ≡ holder_key_cmp (told_holder one.now) (told_holder other.now) }
{
    let by_kind = one.kind.cmp(&other.kind);
    let by_site = compare_optional_sites(one.site, other.site);
    let by_first = one.first.cmp(&other.first);
    let by_second = one.second.cmp(&other.second);
    let by_third = one.third.cmp(&other.third);
    by_kind.then(by_site.then(by_first.then(by_second.then(by_third))))
}

/// The key of a holder.
fn key_of(holder: &Holder) -> HolderWords<'_>
    ensures { told_holder result ≡ holder_key (holder_of holder.now) }
{
    match holder {
        Holder::Variable(variable) => variable_key(*variable),
        Holder::Field(site, field) => site_key(2, site, field.0),
        Holder::Elements(site) => site_key(3, site, 0),
        Holder::Static(field) => number_key(4, field.0, 0, 0),
        Holder::Kept => number_key(5, 0, 0, 0),
        Holder::Returned(method) => number_key(6, method.0, 0, 0),
        Holder::Thrown(method) => number_key(7, method.0, 0, 0),
    }
}

/// The key of a variable.
fn variable_key<'h>(variable: Variable) -> HolderWords<'h>
    ensures { told_holder result ≡ holder_key (held_variable variable) }
{
    match variable {
        Variable::At {
            method,
            offset,
            slot,
        } => number_key(0, method.0, offset, slot),
        Variable::Parameter { method, slot } => number_key(1, method.0, slot, 0),
    }
}

/// The key of a holder with a site.
fn site_key(kind: u8, site: &Site, first: u32) -> HolderWords<'_>
    ensures { told_holder result ≡ record { kind = kind; site = Some site.now; first = first; second = 0; third = 0 } }
{
    HolderWords {
        kind,
        site: Some(site),
        first,
        second: 0,
        third: 0,
    }
}

/// The key of a holder without a site.
fn number_key<'h>(kind: u8, first: u32, second: u32, third: u32) -> HolderWords<'h>
    ensures { told_holder result ≡ record { kind = kind; site = None; first = first; second = second; third = third } }
{
    HolderWords {
        kind,
        site: None,
        first,
        second,
        third,
    }
}
