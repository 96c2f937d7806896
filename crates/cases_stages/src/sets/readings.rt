//! Readings of a ground by number, against the lists that are printed, and the first stage of each site, against the calls on its objects. A line is
//! printed for each that says something else, so that none stands in what the program has to print.

ghost use Rattle.std.specs.Prelude.{◌<◌, length, IfOk};
ghost use Rattle.jvm_model.specs.Automata.{IsAutomaton};
ghost use Rattle.ground.specs.Findings.{HasNode};

use anyhow::Result;
use ground::{Ground, NodePlace, call_event, receiver};
use jvm_model::{Automaton, SiteNo};
use op_model::{NodeRef, Op};
use points_to_rules::PlaceNo;
use property_file::read_property;
use prune_stage::prune_site;
use std::alloc::Global;

/// A property of which each event is an error at once.
const PROPERTY: &[u8] = b"version = 1
class = \"A\"
states = [\"untouched\", \"touched\"]
initial = \"untouched\"
error = \"touched\"
[[event]]
name = \"make\"
descriptor = \"()Ljava/lang/Object;\"
next = [\"touched\", \"touched\"]
[[event]]
name = \"self\"
descriptor = \"()Llib/Base;\"
next = [\"touched\", \"touched\"]
";

/// Compares methods and nodes by their numbers, what places hold, what methods write, and which sites the first stage proves safe.
pub fn tell_disagreements<R: Print>(rt: &R, alloc: Global, ground: &Ground<'_>) -> Result<()> {
    compare_readings(rt, ground)?;
    compare_stage(rt, ground, &automaton(alloc)?)
}

/// The automaton of the property.
fn automaton(alloc: Global) -> Result<Automaton>
    ensures { IfOk result IsAutomaton }
{
    Ok(read_property(alloc, PROPERTY)?)
}

/// Compares methods and nodes by their numbers, what places hold, and what methods write.
fn compare_readings<R: Print>(rt: &R, ground: &Ground<'_>) -> Result<()> {
    for method in 0..ground.method_count() {
        compare_method(rt, ground, method)?;
    }
    for number in 0..ground.place_count() {
        if let Ok(number) = u32::try_from(number) {
            compare_place(rt, ground, PlaceNo(number))?;
        }
    }
    for write in ground.writes() {
        if !ground.may_write(write.method, write.field) {
            println!(rt; "disagrees: what method {} writes", write.method.0)?;
        }
    }
    Ok(())
}

/// Compares the place of a method, and the places of its nodes.
fn compare_method<R: Print>(rt: &R, ground: &Ground<'_>, method: usize) -> Result<()>
    requires { method < length ground.now.methods }
{
    let lowered = ground.method(method);
    if ground.place_of_method(lowered.method) != Some(method) {
        println!(rt; "disagrees: the place of method {method}")?;
    }
    for node in 0..lowered.nodes.len() {
        compare_node(rt, ground, NodePlace { method, node })?;
    }
    Ok(())
}

/// Compares the place of a node.
fn compare_node<R: Print>(rt: &R, ground: &Ground<'_>, at: NodePlace) -> Result<()>
    requires { HasNode ground.now at }
{
    let meant = NodeRef {
        method: Some(ground.method(at.method).method),
        offset: ground.node(at).offset,
    };
    if ground.place_of_node(meant) != Some(at) {
        println!(rt;
            "disagrees: the place of node {} of method {}",
            at.node, at.method
        )?;
    }
    Ok(())
}

/// Compares the sites that a place holds with those that it is asked for, one by one.
fn compare_place<R: Print>(rt: &R, ground: &Ground<'_>, place: PlaceNo) -> Result<()> {
    let sites = ground.sites_at(place);
    for number in 0..ground.site_count() {
        if let Ok(number) = u32::try_from(number) {
            let site = SiteNo(number);
            let holds = sites.contains(&site);
            if ground.holds(place, site) != holds {
                println!(rt; "disagrees: whether place {} holds site {number}", place.0)?;
            }
            if ground.holds_alone(place, site) != (holds && sites.len() == 1) {
                println!(rt;
                    "disagrees: whether place {} holds site {number} alone",
                    place.0
                )?;
            }
        }
    }
    Ok(())
}

/// Compares for each site whether the first stage proves it safe, and whether there is no call on its objects that is an event.
fn compare_stage<R: Print>(rt: &R, ground: &Ground<'_>, automaton: &Automaton) -> Result<()>
    requires { IsAutomaton automaton.now }
{
    for number in 0..ground.site_count() {
        if let Ok(number) = u32::try_from(number) {
            let site = SiteNo(number);
            if prune_site(ground, automaton, site) == is_called(ground, automaton, site) {
                println!(rt; "disagrees: whether site {number} is safe")?;
            }
        }
    }
    Ok(())
}

/// Whether a call that is an event may be made on an object of a site.
fn is_called(ground: &Ground<'_>, automaton: &Automaton, site: SiteNo) -> bool {
    for method in 0..ground.method_count() {
        if ground.may_run(ground.method(method).method)
            && is_called_in(ground, automaton, site, method)
        {
            return true;
        }
    }
    false
}

/// Whether one is made in the method at a place.
fn is_called_in(ground: &Ground<'_>, automaton: &Automaton, site: SiteNo, method: usize) -> bool
    requires { method < length ground.now.methods }
{
    for node in 0..ground.method(method).nodes.len() {
        if is_called_at(ground, automaton, site, NodePlace { method, node }) {
            return true;
        }
    }
    false
}

/// Whether one is made at a node.
fn is_called_at(ground: &Ground<'_>, automaton: &Automaton, site: SiteNo, at: NodePlace) -> bool
    requires { HasNode ground.now at }
{
    let Op::Call(call) = &ground.node(at).op else {
        return false;
    };
    if call_event(automaton, call).is_none() {
        return false;
    }
    match receiver(call) {
        Some(slot) => match ground.place_of_slot(at, slot) {
            Some(place) => ground.holds(place, site),
            None => false,
        },
        None => false,
    }
}
