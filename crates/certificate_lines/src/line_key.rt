//! What lines are ordered by.

ghost use Rattle.std.specs.Prelude.{◌≡◌, [], Some, None, option_map};
ghost use Rattle.std.specs.Option.{option_cmp};
ghost use Rattle.certificate_lines.specs.LineOrder.{holder_cmp, line_key, line_key_cmp, of_names, of_numbers, of_site};
ghost use Rattle.certificate_lines.specs.LineTexts.{edge_of, holder_of};
ghost use Rattle.certificate_lines.specs.Told.{told_line};

use crate::fact_order::compare_optional_edges;
use crate::holder_key::compare_holders;
use crate::line::{Holder, Line, ListedEdge};
use crate::site_order::{compare_bytes, compare_optional_sites};
use jvm_model::Site;
use std::cmp::Ordering;

/// What a line is ordered by: its kind and its words, as far as it has such. A claim and an edge have the stage as their first number.
#[derive(Clone, Copy)]
pub(crate) struct LineWords<'l> {
    kind: u8,
    first: u32,
    second: u32,
    holder: Option<&'l Holder>,
    site: Option<&'l Site>,
    edge: Option<&'l ListedEdge>,
    name: &'l [u8],
    descriptor: &'l [u8],
    next: &'l [u8],
}

impl<'l> LineWords<'l> {
    /// The kind of the line.
    pub(crate) fn kind(&self) -> u8
        ensures { result ≡ self.now.kind }
    {
        self.kind
    }
}

/// By the kinds, and then by the words.
pub(crate) fn compare_keys(one: &LineWords<'_>, other: &LineWords<'_>) -> Ordering
    ensures { result ≡ line_key_cmp (told_line one.now) (told_line other.now) }
{
    let by_kind = one.kind.cmp(&other.kind);
    let by_first = one.first.cmp(&other.first);
    let by_second = one.second.cmp(&other.second);
    let by_holder = compare_optional_holders(one.holder, other.holder);
    let by_site = compare_optional_sites(one.site, other.site);
    let by_edge = compare_optional_edges(one.edge, other.edge);
    let by_name = compare_bytes(one.name, other.name);
    let by_descriptor = compare_bytes(one.descriptor, other.descriptor);
    let by_next = compare_bytes(one.next, other.next);
    let by_names = by_name.then(by_descriptor.then(by_next));
    let by_sites = by_holder.then(by_site.then(by_edge.then(by_names)));
    by_kind.then(by_first.then(by_second.then(by_sites)))
}

/// No holder comes before each.
fn compare_optional_holders(one: Option<&Holder>, other: Option<&Holder>) -> Ordering
    ensures { result ≡ option_cmp holder_cmp (option_map (λ h. holder_of h.now) one.entry) (option_map (λ h. holder_of h.now) other.entry) }
{
    match one {
        None => match other {
            None => Ordering::Equal,
            Some(_) => Ordering::Less,
        },
        Some(holder) => match other {
            None => Ordering::Greater,
            Some(also) => compare_holders(holder, also),
        },
    }
}

/// The key of a line.
pub(crate) fn key_of(line: &Line) -> LineWords<'_>
    ensures { told_line result ≡ line_key line.now }
{
    match line {
        Line::Version => number_key(0, 0, 0),
        Line::Class(name) => name_key(1, name.as_slice(), &[], &[]),
        Line::State(name) => name_key(2, name.as_slice(), &[], &[]),
        Line::Initial(state) => number_key(3, u32::from(*state), 0),
        Line::Error(state) => number_key(4, u32::from(*state), 0),
        Line::Event(event) => name_key(
            5,
            event.name.as_slice(),
            event.descriptor.as_slice(),
            event.next.as_slice(),
        ),
        Line::Entry(method) => number_key(6, method.0, 0),
        Line::Depth(depth) => number_key(7, u32::from(*depth), 0),
        Line::Reached(method) => number_key(8, method.0, 0),
        Line::PointsTo { holder, site } => site_key(9, 0, Some(holder), site, None),
        Line::Modifies { method, field } => number_key(10, method.0, field.0),
        Line::Claim { stage, site } => site_key(11, u32::from(*stage), None, site, None),
        Line::PathEdge(edge) => {
            site_key(12, u32::from(edge.stage), None, &edge.site, Some(edge))
        }
        Line::End => number_key(13, 0, 0),
    }
}

/// The key of a line with numbers alone.
fn number_key<'l>(kind: u8, first: u32, second: u32) -> LineWords<'l>
    ensures { told_line result ≡ of_numbers kind first second }
{
    LineWords {
        kind,
        first,
        second,
        holder: None,
        site: None,
        edge: None,
        name: &[],
        descriptor: &[],
        next: &[],
    }
}

/// The key of a line with names.
fn name_key<'l>(kind: u8, name: &'l [u8], descriptor: &'l [u8], next: &'l [u8]) -> LineWords<'l>
    ensures { told_line result ≡ of_names kind name.now descriptor.now next.now }
{
    LineWords {
        kind,
        first: 0,
        second: 0,
        holder: None,
        site: None,
        edge: None,
        name,
        descriptor,
        next,
    }
}

/// The key of a line with a site.
fn site_key<'l>(
    kind: u8,
    first: u32,
    holder: Option<&'l Holder>,
    site: &'l Site,
    edge: Option<&'l ListedEdge>,
) -> LineWords<'l>
    ensures { told_line result ≡ of_site kind first (option_map (λ h. holder_of h.now) holder.entry) site.now (option_map (λ e. edge_of e.now) edge.entry) }
{
    LineWords {
        kind,
        first,
        second: 0,
        holder,
        site: Some(site),
        edge,
        name: &[],
        descriptor: &[],
        next: &[],
    }
}
