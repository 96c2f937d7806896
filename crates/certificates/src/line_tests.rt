//! Whether a line by itself is of the format.

ghost use Rattle.std.specs.Prelude.{◌≡◌, ◌↔◌, ◌&&◌, nat_lt, IsTrue};
ghost use Rattle.std.specs.List.{list_all};
ghost use Rattle.std.specs.Str.{IsUtf8};
ghost use Rattle.certificate_lines.specs.declared.line.Holder.TheVariants.{Variable as VariableHolder};
ghost use Rattle.certificate_lines.specs.declared.line.Line.TheVariants.{Claim as ClaimLine, PathEdge as EdgeLine};
ghost use Rattle.access_paths.specs.Followed.{listed};
ghost use Rattle.certificates.specs.Format.{IsText, is_boot, is_event, is_fact, is_field, is_holder, is_line, is_made_in, is_method, is_name, is_optional_method, is_path, is_root, is_site, is_tuple};

use crate::ranges::Ranges;
use access_paths::{Fields, Path, Root};
use certificate_lines::{Holder, Line, ListedEdge};
use jvm_model::{Event, FieldNo, MethodNo, Site, SiteKind};
use slot_names::Variable;
use stage_facts::{PlainFact, PlainTuple};

/// Whether the line is of the format, whatever stands before it, where there are so many states.
pub(crate) fn is_line(ranges: Ranges, states: u32, line: &Line) -> bool
    ensures { result ≡ is_line ranges states line.now }
{
    match line {
        Line::Version => true,
        Line::Class(name) => is_name(name.as_slice()),
        Line::State(name) => is_name(name.as_slice()),
        Line::Initial(state) => u32::from(*state) < states,
        Line::Error(state) => u32::from(*state) < states,
        Line::Event(event) => is_event(states, event),
        Line::Entry(method) => is_method(ranges, *method),
        Line::Depth(depth) => *depth <= 3,
        Line::Reached(method) => is_method(ranges, *method),
        Line::PointsTo { holder, site } => are_held(ranges, holder, site),
        Line::Modifies { method, field } => is_modified(ranges, *method, *field),
        Line::Claim { stage, site } => is_claim_of(ranges, *stage, site),
        Line::PathEdge(edge) => is_edge(ranges, states, edge),
        Line::End => true,
    }
}

/// Whether the name of a state is UTF-8.
pub(crate) fn is_text(line: &Line) -> bool
    ensures { IsTrue result ↔ IsText line.now }
{
    match line {
        Line::Version => true,
        Line::Class(_) => true,
        Line::State(name) => is_utf8(name.as_slice()),
        Line::Initial(_) => true,
        Line::Error(_) => true,
        Line::Event(_) => true,
        Line::Entry(_) => true,
        Line::Depth(_) => true,
        Line::Reached(_) => true,
        Line::PointsTo { holder: _, site: _ } => true,
        Line::Modifies {
            method: _,
            field: _,
        } => true,
        Line::Claim { stage: _, site: _ } => true,
        Line::PathEdge(_) => true,
        Line::End => true,
    }
}

fn is_utf8(name: &[u8]) -> bool
    ensures { IsTrue result ↔ IsUtf8 name.now }
{
    str::from_utf8(name).is_ok()
}

fn is_method(ranges: Ranges, method: MethodNo) -> bool
    ensures { result ≡ is_method ranges method }
{
    method.0 < ranges.methods
}

fn is_field(ranges: Ranges, field: FieldNo) -> bool
    ensures { result ≡ is_field ranges field }
{
    field.0 < ranges.fields
}

fn is_name(name: &[u8]) -> bool
    ensures { result ≡ is_name name.now }
{
    name.len() > 0
}

fn is_optional_method(ranges: Ranges, method: Option<MethodNo>) -> bool
    ensures { result ≡ is_optional_method ranges method }
{
    match method {
        None => true,
        Some(method) => is_method(ranges, method),
    }
}

fn is_boot(kind: SiteKind) -> bool
    ensures { result ≡ is_boot kind }
{
    match kind {
        SiteKind::Boot => true,
        SiteKind::New => false,
        SiteKind::Result => false,
        SiteKind::Thrown => false,
    }
}

/// Whether a site has a method, if its kind wants one.
fn is_made_in(ranges: Ranges, kind: SiteKind, method: Option<MethodNo>, offset: u32) -> bool
    ensures { result ≡ is_made_in ranges kind method offset }
{
    match method {
        None => {
            if !is_boot(kind) {
                return false;
            }
            offset == 0
        }
        Some(method) => {
            if is_boot(kind) {
                return false;
            }
            is_method(ranges, method)
        }
    }
}

fn is_site(ranges: Ranges, site: &Site) -> bool
    ensures { result ≡ is_site ranges site.now }
{
    if !is_made_in(ranges, site.kind, site.method, site.offset) {
        return false;
    }
    is_name(site.class.as_slice())
}

fn is_root(ranges: Ranges, root: Root) -> bool
    ensures { result ≡ is_root ranges root }
{
    match root {
        Root::Slot(_) => true,
        Root::Static(field) => is_field(ranges, field),
        Root::Returned => true,
        Root::Thrown => true,
    }
}

fn are_fields(ranges: Ranges, fields: Fields) -> bool
    ensures { result ≡ list_all (is_field ranges) (listed fields) }
{
    let mut left = fields;
    while let Some((field, rest)) = left.split_first() {
        if !is_field(ranges, field) {
            return false;
        }
        left = rest;
    }
    true
}

fn is_path(ranges: Ranges, path: &Path) -> bool
    ensures { result ≡ is_path ranges path.now }
{
    if !is_root(ranges, path.root()) {
        return false;
    }
    are_fields(ranges, path.fields())
}

fn are_paths(ranges: Ranges, paths: &[Path]) -> bool
    ensures { result ≡ list_all (is_path ranges) paths.now }
{
    for path in paths {
        if !is_path(ranges, path) {
            return false;
        }
    }
    true
}

fn is_tuple(ranges: Ranges, states: u32, tuple: &PlainTuple) -> bool
    ensures { result ≡ is_tuple ranges states tuple.now }
{
    if u32::from(tuple.state) >= states {
        return false;
    }
    if !are_paths(ranges, tuple.must.as_slice()) {
        return false;
    }
    are_paths(ranges, tuple.must_not.as_slice())
}

fn is_fact(ranges: Ranges, states: u32, fact: &PlainFact) -> bool
    ensures { result ≡ is_fact ranges states fact.now }
{
    match fact {
        PlainFact::NoneYet => true,
        PlainFact::SomeYet => true,
        PlainFact::OfObject(tuple) => is_tuple(ranges, states, tuple),
    }
}

fn is_holder(ranges: Ranges, holder: &Holder) -> bool
    ensures { result ≡ is_holder ranges holder.now }
{
    match holder {
        Holder::Variable(variable) => is_variable(ranges, *variable),
        Holder::Field(site, field) => is_site_field(ranges, site, *field),
        Holder::Elements(site) => is_site(ranges, site),
        Holder::Static(field) => is_field(ranges, *field),
        Holder::Kept => true,
        Holder::Returned(method) => is_method(ranges, *method),
        Holder::Thrown(method) => is_method(ranges, *method),
    }
}

fn is_variable(ranges: Ranges, variable: Variable) -> bool
    ensures { result ≡ is_holder ranges (VariableHolder variable) }
{
    match variable {
        Variable::At {
            method,
            offset: _,
            slot: _,
        } => is_method(ranges, method),
        Variable::Parameter { method, slot: _ } => is_method(ranges, method),
    }
}

fn is_site_field(ranges: Ranges, site: &Site, field: FieldNo) -> bool
    ensures { result ≡ (is_site ranges site.now && is_field ranges field) }
{
    if !is_site(ranges, site) {
        return false;
    }
    is_field(ranges, field)
}

fn are_held(ranges: Ranges, holder: &Holder, site: &Site) -> bool
    ensures { result ≡ (is_holder ranges holder.now && is_site ranges site.now) }
{
    if !is_holder(ranges, holder) {
        return false;
    }
    is_site(ranges, site)
}

fn is_modified(ranges: Ranges, method: MethodNo, field: FieldNo) -> bool
    ensures { result ≡ (is_method ranges method && is_field ranges field) }
{
    if !is_method(ranges, method) {
        return false;
    }
    is_field(ranges, field)
}

fn is_claim_of(ranges: Ranges, stage: u8, site: &Site) -> bool
    ensures { result ≡ is_line ranges 0 (ClaimLine stage site.now) }
{
    if stage < 1 {
        return false;
    }
    if stage > 4 {
        return false;
    }
    is_site(ranges, site)
}

fn is_event(states: u32, event: &Event) -> bool
    ensures { result ≡ is_event states event.now }
{
    if !is_name(event.name.as_slice()) {
        return false;
    }
    if !is_name(event.descriptor.as_slice()) {
        return false;
    }
    if event.next.len() != states as usize {
        return false;
    }
    are_states(states, event.next.as_slice())
}

fn are_states(states: u32, next: &[u8]) -> bool
    ensures { result ≡ list_all (λ q. nat_lt q states) next.now }
{
    for state in next {
        if u32::from(*state) >= states {
            return false;
        }
    }
    true
}

fn is_edge(ranges: Ranges, states: u32, edge: &ListedEdge) -> bool
    ensures { result ≡ is_line ranges states (EdgeLine edge.now) }
{
    if edge.stage < 2 {
        return false;
    }
    if edge.stage > 4 {
        return false;
    }
    if !is_site(ranges, &edge.site) {
        return false;
    }
    if !is_optional_method(ranges, edge.method) {
        return false;
    }
    if !is_fact(ranges, states, &edge.entry) {
        return false;
    }
    is_fact(ranges, states, &edge.fact)
}
