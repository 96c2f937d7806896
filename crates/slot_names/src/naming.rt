//! The nodes of a method, entered one after another: first the merge points and the first node, and then each node that one other node alone
//! leads to, once that node is entered.

ghost use Rattle.std.specs.Prelude.{◌≡◌, ℕ, ◌<◌, length, IfOk, OnOk};
ghost use Rattle.slot_names.specs.Arriving.{AreArrivals};
ghost use Rattle.slot_names.specs.NamedNodes.{AreAllEntered, Enters, GoesOn, Grows, HasRoots, IsEntered, IsFollowed, IsFollowedAt, IsNaming, IsRootEntered, is_from, root_of};
ghost use Rattle.slot_names.specs.NodePlaces.{AreInOrder};
ghost use Rattle.slot_names.specs.Variables.{AreReachedNodes};

use crate::arrivals::Arrival;
use crate::entry::{Entry, Root};
use crate::moved::moved_row;
use crate::moves::moves_of;
use crate::places::place_of;
use crate::rows::Rows;
use op_model::{LoweredMethod, Move};
use std::alloc::{AllocError, Global};

/// What is kept of each node that is entered, by its place, and the places of these nodes in the order in which they came.
#[derive(Drop)]
pub(crate) struct Naming {
    pub(crate) entries: Vec<Option<Entry>>,
    pub(crate) order: Vec<usize>,
    pub(crate) rows: Rows,
}

/// What is kept of each node of a method whose nodes are all reached.
pub(crate) fn enter_all(
    alloc: Global,
    method: &LoweredMethod,
    arrivals: &[Arrival],
) -> Result<Naming, AllocError>
    requires reached { AreReachedNodes method.now }
    requires arrivals { AreArrivals method.now arrivals.now }
    ensures naming { IfOk result (IsNaming method.now) }
    ensures all { IfOk result (λ naming. AreAllEntered method.now naming.entries.items) }
{
    let mut naming = begin(alloc, method, arrivals)?;
    let mut done = 0;
    while done < naming.order.len() {
        let from = naming.order[done];
        follow(alloc, method, arrivals, from, &mut naming)?;
        done += 1;
    }
    naming.rows.fit();
    Ok(naming)
}

/// Enters the merge points and the first node.
fn begin(alloc: Global, method: &LoweredMethod, arrivals: &[Arrival]) -> Result<Naming, AllocError>
    requires arrivals { AreArrivals method.now arrivals.now }
    requires order { AreInOrder method.now }
    ensures naming { IfOk result (IsNaming method.now) }
    ensures roots { IfOk result (λ naming. HasRoots method.now arrivals.now (length method.now.nodes) naming.entries.items) }
{
    let count = method.nodes.len();
    let entries = vec![in alloc; None; count]?;
    let mut naming = Naming {
        entries,
        order: Vec::new(alloc),
        rows: Rows::new(alloc),
    };
    for place in 0..count {
        begin_at(method, arrivals, place, &mut naming)?;
    }
    Ok(naming)
}

/// Enters the node at a place, if no other node tells where its slots have their variables from.
fn begin_at(
    method: &LoweredMethod,
    arrivals: &[Arrival],
    place: usize,
    naming: &mut Naming,
) -> Result<(), AllocError>
    requires order { AreInOrder method.now }
    requires arrivals { AreArrivals method.now arrivals.now }
    requires there { place < length method.now.nodes }
    requires naming { IsNaming method.now naming.old }
    ensures naming { OnOk result (IsNaming method.now naming.new) }
    ensures grows { OnOk result (Grows naming.old naming.new) }
    ensures root { OnOk result (IsRootEntered method.now arrivals.now naming.new.entries.items place) }
{
    let offset = method.nodes.as_slice()[place].offset;
    let Some(root) = root_of(arrivals[place], place, offset) else {
        return Ok(());
    };
    naming.enter(place, Entry { root, row: 0 })
}

/// Where the slots of the node at a place and an offset have their variables from, if no other node tells it.
fn root_of(arrival: Arrival, place: usize, offset: u32) -> Option<Root>
    ensures { result ≡ root_of arrival place offset }
{
    match arrival {
        Arrival::Nothing => {
            if place == 0 {
                Some(Root::Beginning)
            } else {
                None
            }
        }
        Arrival::OneNode(_) => None,
        Arrival::Several => Some(Root::Meeting { offset }),
    }
}

/// Enters each node that the one at a place alone leads to.
fn follow(
    alloc: Global,
    method: &LoweredMethod,
    arrivals: &[Arrival],
    from: usize,
    naming: &mut Naming,
) -> Result<(), AllocError>
    requires order { AreInOrder method.now }
    requires arrivals { AreArrivals method.now arrivals.now }
    requires naming { IsNaming method.now naming.old }
    requires entered { IsEntered naming.old.entries.items from }
    ensures naming { OnOk result (IsNaming method.now naming.new) }
    ensures grows { OnOk result (Grows naming.old naming.new) }
    ensures followed { OnOk result (IsFollowed method.now arrivals.now naming.new.entries.items from) }
{
    let node = &method.nodes.as_slice()[from];
    let moves = moves_of(alloc, &node.op)?;
    for offset in node.successors.as_slice() {
        go_on(method, arrivals, from, &moves, *offset, naming)?;
    }
    Ok(())
}

/// Enters the node at an offset where the one at a place goes on, if no other leads to it.
fn go_on(
    method: &LoweredMethod,
    arrivals: &[Arrival],
    from: usize,
    moves: &[Move],
    offset: u32,
    naming: &mut Naming,
) -> Result<(), AllocError>
    requires order { AreInOrder method.now }
    requires arrivals { AreArrivals method.now arrivals.now }
    requires goes { GoesOn method.now from offset moves.now }
    requires naming { IsNaming method.now naming.old }
    requires entered { IsEntered naming.old.entries.items from }
    ensures naming { OnOk result (IsNaming method.now naming.new) }
    ensures grows { OnOk result (Grows naming.old naming.new) }
    ensures followed { OnOk result (IsFollowedAt method.now arrivals.now naming.new.entries.items from offset) }
{
    let Some(place) = place_of(method, offset) else {
        return Ok(());
    };
    if !is_from(arrivals[place], from) {
        return Ok(());
    }
    let Some(entry) = naming.entries[from] else {
        return Ok(());
    };
    let row = moved_row(&mut naming.rows, method.method, entry, moves, offset)?;
    naming.enter(
        place,
        Entry {
            root: entry.root,
            row,
        },
    )
}

/// Whether the node at a place alone leads there.
fn is_from(arrival: Arrival, from: usize) -> bool
    ensures { result ≡ is_from arrival from }
{
    match arrival {
        Arrival::OneNode(earlier) => earlier == from,
        Arrival::Nothing | Arrival::Several => false,
    }
}

impl Naming {
    /// Enters a node, if it is not entered yet.
    fn enter(&mut self, place: usize, entry: Entry) -> Result<(), AllocError>
        requires { place < length self.old.entries.items }
        ensures { OnOk result (Enters self.old self.new place entry) }
    {
        if self.entries[place].is_some() {
            return Ok(());
        }
        self.order.push(place)?;
        self.entries[place] = Some(entry);
        Ok(())
    }
}
