//! The sets of a ground as lines of text.

ghost use Rattle.std.specs.Prelude.{◌<◌, length, IfSome};

use crate::lines::tell_lines;
use anyhow::Result;
use cases_files::{Names, shown, write_site};
use ground::Ground;
use jvm_model::{MethodNo, SiteNo};
use op_model::NodeRef;
use points_to_rules::{Place, PlaceNo};
use slot_names::Variable;
use std::alloc::{AllocError, Global};

/// Prints the sets: the methods that may run, the targets of calls, the sites of places, and the fields that methods write. The lines of one kind
/// stand in byte order.
pub fn tell_sets<R: Print>(
    rt: &R,
    alloc: Global,
    ground: &Ground<'_>,
    names: &Names,
) -> Result<()> {
    tell_lines(rt, reached_lines(alloc, ground, names)?)?;
    tell_lines(rt, target_lines(alloc, ground, names)?)?;
    tell_lines(rt, pair_lines(alloc, ground, names)?)?;
    tell_lines(rt, write_lines(alloc, ground, names)?)
}

/// A line for each method that may run.
fn reached_lines(
    alloc: Global,
    ground: &Ground<'_>,
    names: &Names,
) -> Result<Vec<String>, AllocError> {
    let mut lines = Vec::new(alloc);
    for method in ground.running() {
        let name = names.method(*method);
        lines.push(format!(in alloc; "reached {name}")?)?;
    }
    Ok(lines)
}

/// A line for each field that a method may write.
fn write_lines(
    alloc: Global,
    ground: &Ground<'_>,
    names: &Names,
) -> Result<Vec<String>, AllocError> {
    let mut lines = Vec::new(alloc);
    for write in ground.writes() {
        let method = names.method(write.method);
        let field = names.field(write.field);
        lines.push(format!(in alloc; "writes {method} : {field}")?)?;
    }
    Ok(lines)
}

/// Prints how many methods may run, and how many targets, pairs and writes there are.
pub fn tell_counts<R: Print>(rt: &R, ground: &Ground<'_>) -> Result<()> {
    let reached = ground.running().len();
    let targets = count_targets(ground);
    let pairs = count_pairs(ground);
    let writes = ground.writes().len();
    println!(rt; "reached {reached}")?;
    println!(rt; "targets {targets}")?;
    println!(rt; "pairs {pairs}")?;
    println!(rt; "writes {writes}")?;
    Ok(())
}

/// How many targets of calls there are.
fn count_targets(ground: &Ground<'_>) -> usize {
    let mut count: usize = 0;
    for call in ground.calls() {
        count = count.saturating_add(ground.targets_of(*call).len());
    }
    count
}

/// How many pairs of a place and a site there are.
fn count_pairs(ground: &Ground<'_>) -> usize {
    let mut count: usize = 0;
    for number in 0..ground.place_count() {
        count = count.saturating_add(count_sites(ground, number));
    }
    count
}

/// How many sites the place of a number has.
fn count_sites(ground: &Ground<'_>, number: usize) -> usize {
    match place_at(ground, number) {
        Some(place) => ground.sites_at(place).len(),
        None => 0,
    }
}

/// The place of a number; `None` for a number that no place has.
fn place_at(ground: &Ground<'_>, number: usize) -> Option<PlaceNo>
    ensures { IfSome result (λ place. place.0 < length ground.now.holders) }
{
    if number >= ground.place_count() {
        return None;
    }
    match u32::try_from(number) {
        Ok(number) => Some(PlaceNo(number)),
        Err(_) => None,
    }
}

/// A line for each target of a call.
fn target_lines(
    alloc: Global,
    ground: &Ground<'_>,
    names: &Names,
) -> Result<Vec<String>, AllocError> {
    let mut lines = Vec::new(alloc);
    for call in ground.calls() {
        let text = call_text(alloc, names, *call)?;
        add_targets(
            alloc,
            &mut lines,
            names,
            text.as_str(),
            ground.targets_of(*call),
        )?;
    }
    Ok(lines)
}

/// Adds a line for each of these targets of a call.
fn add_targets(
    alloc: Global,
    lines: &mut Vec<String>,
    names: &Names,
    call: &str,
    targets: &[MethodNo],
) -> Result<(), AllocError> {
    for target in targets {
        let target = names.method(*target);
        lines.push(format!(in alloc; "target {call} > {target}")?)?;
    }
    Ok(())
}

/// A call as a text.
fn call_text(alloc: Global, names: &Names, at: NodeRef) -> Result<String, AllocError> {
    match at.method {
        Some(method) => {
            let method = names.method(method);
            let offset = at.offset;
            format!(in alloc; "{method} {offset}")
        }
        None => String::from_str(alloc, "start"),
    }
}

/// A line for each pair of a place and a site.
fn pair_lines(
    alloc: Global,
    ground: &Ground<'_>,
    names: &Names,
) -> Result<Vec<String>, AllocError> {
    let mut lines = Vec::new(alloc);
    for number in 0..ground.place_count() {
        if let Some(place) = place_at(ground, number) {
            add_pairs(alloc, &mut lines, ground, names, place)?;
        }
    }
    Ok(lines)
}

/// Adds a line for each site of a place.
fn add_pairs(
    alloc: Global,
    lines: &mut Vec<String>,
    ground: &Ground<'_>,
    names: &Names,
    place: PlaceNo,
) -> Result<(), AllocError>
    requires { place.0 < length ground.now.holders }
{
    let text = place_text(alloc, ground, names, ground.place(place))?;
    for site in ground.sites_at(place) {
        let site = site_text(alloc, ground, names, *site)?;
        lines.push(format!(in alloc; "holds {text} : {site}")?)?;
    }
    Ok(())
}

/// A place as a text.
fn place_text(
    alloc: Global,
    ground: &Ground<'_>,
    names: &Names,
    place: Place,
) -> Result<String, AllocError> {
    match place {
        Place::Variable(Variable::Parameter { method, slot }) => {
            let method = names.method(method);
            format!(in alloc; "param {method} {slot}")
        }
        Place::Variable(
            Variable::At {
                method,
                offset,
                slot,
            },
        ) => {
            let method = names.method(method);
            format!(in alloc; "at {method} {offset} {slot}")
        }
        Place::Field(site, field) => {
            let site = site_text(alloc, ground, names, site)?;
            let field = names.field(field);
            format!(in alloc; "field {site} {field}")
        }
        Place::Elements(site) => {
            let site = site_text(alloc, ground, names, site)?;
            format!(in alloc; "elements {site}")
        }
        Place::Static(field) => {
            let field = names.field(field);
            format!(in alloc; "static {field}")
        }
        Place::Kept => String::from_str(alloc, "kept"),
        Place::Returned(method) => {
            let method = names.method(method);
            format!(in alloc; "result {method}")
        }
        Place::Thrown(method) => {
            let method = names.method(method);
            format!(in alloc; "thrown {method}")
        }
    }
}

/// A site as a text; `?` for a number that no site has.
fn site_text(
    alloc: Global,
    ground: &Ground<'_>,
    names: &Names,
    site: SiteNo,
) -> Result<String, AllocError> {
    let mut text = String::new(alloc);
    if site.0 as usize >= ground.site_count() {
        text.push_str("?")?;
        return Ok(text);
    }
    let at = ground.site(site);
    let class = shown(at.class.as_slice());
    write_site(&mut text, names, at.kind, at.method, at.offset, class)?;
    Ok(text)
}
