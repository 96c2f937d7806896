//! The sets of items: the sites of each place, the methods that may run, and the targets of each call.

ghost use Rattle.std.specs.Prelude.{Contains, IfOk, OnOk};
ghost use Rattle.points_to_constraints.specs.Items.{Item as RuleItem};
ghost use Rattle.points_to_numbers.specs.declared.item.Item.{Item};
ghost use Rattle.points_to_numbers.specs.Steps.{IsItemAt};
ghost use Rattle.points_to.specs.Queues.{items_of};
ghost use Rattle.call_graph.specs.Sets.{AddsTarget, AreSetsOf, TakesItem};

use crate::rows::add_rows;
use grouped_lists::Groups;
use indexmap::IndexSet;
use jvm_model::{MethodNo, SiteNo};
use op_model::NodeRef;
use points_to::Queue;
use points_to_numbers::{Item, Tables};
use std::alloc::{AllocError, Global};

/// The sites of each place by its number, the methods that may run, the calls, and the targets of each call by its number.
#[derive(Drop)]
pub(crate) struct Sets {
    pub(crate) sites: Groups<SiteNo>,
    pub(crate) running: IndexSet<MethodNo>,
    pub(crate) calls: IndexSet<NodeRef>,
    pub(crate) targets: Groups<MethodNo>,
}

/// The sets of the items of a work list: those of its other items, with the sites of its rows.
pub(crate) fn sets_of(alloc: Global, tables: &Tables, queue: &Queue) -> Result<Sets, AllocError>
    requires { (item : Item) → Contains (items_of queue.now) item → (x : RuleItem) × IsItemAt tables.now item x }
    ensures { IfOk result (AreSetsOf tables.now (items_of queue.now)) }
{
    let mut sets = others_of(alloc, tables, queue.others.as_slice())?;
    add_rows(&mut sets.sites, &queue.rows.rows)?;
    Ok(sets)
}

/// The sets of items.
fn others_of(alloc: Global, tables: &Tables, items: &[Item]) -> Result<Sets, AllocError>
    requires { (item : Item) → Contains items.now item → (x : RuleItem) × IsItemAt tables.now item x }
    ensures { IfOk result (AreSetsOf tables.now items.now) }
{
    let mut sets = Sets {
        sites: Groups::new(alloc),
        running: IndexSet::new(alloc),
        calls: IndexSet::new(alloc),
        targets: Groups::new(alloc),
    };
    for item in items {
        add_item(tables, &mut sets, *item)?;
    }
    Ok(sets)
}

/// Adds an item to the sets.
fn add_item(tables: &Tables, sets: &mut Sets, item: Item) -> Result<(), AllocError>
    requires { (x : RuleItem) × IsItemAt tables.now item x }
    ensures { OnOk result (TakesItem tables.now item sets.old sets.new) }
{
    match item {
        Item::Holds(place, site) => sets.sites.add(place.0, site),
        Item::Runs(method) => {
            sets.running.insert(method)?;
            Ok(())
        }
        Item::Calls(call, target) => add_target(sets, tables.call_of(call).at, target),
        Item::Constrains(_, _) => Ok(()),
    }
}

/// Adds a target of a call.
fn add_target(sets: &mut Sets, call: NodeRef, target: MethodNo) -> Result<(), AllocError>
    ensures { OnOk result (AddsTarget call target sets.old sets.new) }
{
    let (number, _) = sets.calls.insert_full(call)?;
    sets.targets.add_at(number, target)
}
