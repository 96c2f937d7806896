//! How the nodes of a method are reached.

ghost use Rattle.std.specs.Prelude.{◌≡◌, ℕ, ◌<◌, length, IfOk};
ghost use Rattle.slot_names.specs.Arriving.{AreArrivals, AreSound, HandsTo, IsHandled, IsNoted, LeadsTo, Rises, joined};
ghost use Rattle.slot_names.specs.NodePlaces.{AreInOrder};

use crate::places::place_of;
use op_model::LoweredMethod;
use std::alloc::{AllocError, Global};

/// How a node is reached: from no other, from the one at a place alone, or as a merge point.
#[derive(Clone, Copy)]
pub(crate) enum Arrival {
    Nothing,
    OneNode(usize),
    Several,
}

/// How each node is reached, by its place.
pub(crate) fn arrivals(alloc: Global, method: &LoweredMethod) -> Result<Vec<Arrival>, AllocError>
    requires { AreInOrder method.now }
    ensures { IfOk result (λ v. AreArrivals method.now v.items) }
{
    let mut arrivals = vec![in alloc; Arrival::Nothing; method.nodes.len()]?;
    note_all(method, &mut arrivals);
    Ok(arrivals)
}

/// Notes where each node goes on, and where the handlers begin that cover it.
fn note_all(method: &LoweredMethod, arrivals: &mut [Arrival])
    requires order { AreInOrder method.now }
    requires sound { AreSound method.now arrivals.old }
    ensures { AreArrivals method.now arrivals.new }
{
    for from in 0..method.nodes.len() {
        note_successors(method, from, arrivals);
        note_handlers(method, from, arrivals);
    }
}

/// Notes where the node at a place goes on.
fn note_successors(method: &LoweredMethod, from: usize, arrivals: &mut [Arrival])
    requires order { AreInOrder method.now }
    requires there { from < length method.now.nodes }
    requires sound { AreSound method.now arrivals.old }
    ensures sound { AreSound method.now arrivals.new }
    ensures rises { Rises arrivals.old arrivals.new }
    ensures noted { (offset : ℕ) → LeadsTo method.now from offset → IsNoted method.now arrivals.new from offset }
{
    let node = &method.nodes.as_slice()[from];
    for offset in node.successors.as_slice() {
        note_successor(method, from, *offset, arrivals);
    }
}

/// Notes that the node at a place goes on at an offset.
fn note_successor(method: &LoweredMethod, from: usize, offset: u32, arrivals: &mut [Arrival])
    requires order { AreInOrder method.now }
    requires leads { LeadsTo method.now from offset }
    requires sound { AreSound method.now arrivals.old }
    ensures sound { AreSound method.now arrivals.new }
    ensures rises { Rises arrivals.old arrivals.new }
    ensures noted { IsNoted method.now arrivals.new from offset }
{
    let Some(place) = place_of(method, offset) else {
        return;
    };
    arrivals[place] = joined(arrivals[place], from, place);
}

/// What is noted of the node at a place with one more that leads there. A first node to which one leads is a merge point.
fn joined(arrival: Arrival, from: usize, place: usize) -> Arrival
    ensures { result ≡ joined arrival from place }
{
    match arrival {
        Arrival::Nothing => {
            if place == 0 {
                Arrival::Several
            } else {
                Arrival::OneNode(from)
            }
        }
        Arrival::OneNode(earlier) => {
            if earlier == from {
                arrival
            } else {
                Arrival::Several
            }
        }
        Arrival::Several => Arrival::Several,
    }
}

/// Notes where the handlers begin that cover the node at a place.
fn note_handlers(method: &LoweredMethod, from: usize, arrivals: &mut [Arrival])
    requires order { AreInOrder method.now }
    requires there { from < length method.now.nodes }
    requires sound { AreSound method.now arrivals.old }
    ensures sound { AreSound method.now arrivals.new }
    ensures rises { Rises arrivals.old arrivals.new }
    ensures handled { (offset : ℕ) → HandsTo method.now from offset → IsHandled method.now arrivals.new offset }
{
    let node = &method.nodes.as_slice()[from];
    for handler in node.handlers.as_slice() {
        note_handler(method, handler.target, arrivals);
    }
}

/// Notes that a handler which covers some node begins at an offset.
fn note_handler(method: &LoweredMethod, offset: u32, arrivals: &mut [Arrival])
    requires order { AreInOrder method.now }
    requires hands { (from : ℕ) × HandsTo method.now from offset }
    requires sound { AreSound method.now arrivals.old }
    ensures sound { AreSound method.now arrivals.new }
    ensures rises { Rises arrivals.old arrivals.new }
    ensures handled { IsHandled method.now arrivals.new offset }
{
    let Some(place) = place_of(method, offset) else {
        return;
    };
    arrivals[place] = Arrival::Several;
}
