//! The constraints of a node's slots, and of the slot that its operation writes, at each successor of the node.

ghost use Rattle.std.specs.Prelude.{◌≡◌, Some, slice_get, OnOk};
ghost use Rattle.jvm_model.specs.declared.site.Site.{Site};
ghost use Rattle.op_model.specs.declared.node.Node.{Node};
ghost use Rattle.points_to_constraints.specs.Items.{known, copy_to, constrained};
ghost use Rattle.points_to_constraints.specs.NodeItems.{MakesItem, ReadsItem, WritesItem};
ghost use Rattle.points_to_numbers.specs.Steps.{Makes};
ghost use Rattle.points_to_methods.specs.Fixed.{holder_of, constraint_by};
ghost use Rattle.points_to_methods.specs.Known.{HasNode, IsNamed, names_at};
ghost use Rattle.points_to_methods.specs.Slots.{MadeAt};
ghost use Rattle.points_to_rules.specs.Facts.{Holder, may_hold};
ghost use Rattle.points_to_rules.specs.Rules.{IsSlot, IsSlotAfter};
ghost use Rattle.points_to_numbers.specs.Numbered.{IsNumbered};

use crate::adding::{FixedPlace, Outgoing, Passing, hold, pass};
use crate::named::{NamedMethod, node_at, slot_place};
use crate::slots::SlotAt;
use jvm_model::SiteNo;
use points_to_numbers::Work;
use program_index::index_failure::IndexFailure;

/// Adds a constraint of a place to the target at each successor of a node.
pub fn pass_after(
    at: &NamedMethod<'_>,
    node: usize,
    outgoing: Outgoing<'_>,
    target: u32,
    work: &mut Work,
) -> Result<(), IndexFailure>
    requires known { IsNamed at.now }
    requires there { HasNode at.now node }
    ensures { (n : Node) → slice_get at.now.method.now.nodes node ≡ Some n
        → OnOk result (Makes work.old.tables work.new.tables
        (λ x. (to : Holder) × IsSlotAfter at.now.method.now n target to × (x ≡ constrained (holder_of outgoing.entry.from) (constraint_by outgoing.entry.passing to))) work.old.steps.items work.new.steps.items) }
{
    let successors = &at.method.nodes.as_slice()[node].successors;
    for offset in successors.as_slice() {
        pass_at(at, *offset, outgoing, target, work)?;
    }
    Ok(())
}

/// Adds a constraint of a place to the target at the node of an offset.
fn pass_at(
    at: &NamedMethod<'_>,
    offset: u32,
    outgoing: Outgoing<'_>,
    target: u32,
    work: &mut Work,
) -> Result<(), IndexFailure>
    requires { IsNamed at.now }
    ensures { OnOk result (Makes work.old.tables work.new.tables
        (MadeAt at.now.method.now (names_at at.now) (λ to. constrained (holder_of outgoing.entry.from) (constraint_by outgoing.entry.passing to)) target offset) work.old.steps.items work.new.steps.items) }
{
    let Some(next) = node_at(at, offset) else {
        return Ok(());
    };
    let to = slot_place(at, next, target);
    pass(outgoing.from, outgoing.passing, to, work)?;
    Ok(())
}

/// Adds the objects of an allocation site to the points-to set of the target at each successor of a node.
pub(crate) fn hold_after(
    at: &NamedMethod<'_>,
    node: usize,
    target: u32,
    site: SiteNo,
    work: &mut Work,
) -> Result<(), IndexFailure>
    requires known { IsNamed at.now }
    requires there { HasNode at.now node }
    requires site { IsNumbered work.old.tables.sites site.0 }
    ensures { (n : Node) (s : Site) → slice_get at.now.method.now.nodes node ≡ Some n → slice_get work.old.tables.sites site.0 ≡ Some s
        → OnOk result (Makes work.old.tables work.new.tables (MakesItem at.now.method.now n target s) work.old.steps.items work.new.steps.items) }
{
    let successors = &at.method.nodes.as_slice()[node].successors;
    for offset in successors.as_slice() {
        hold_at(at, *offset, target, site, work)?;
    }
    Ok(())
}

/// Adds the objects of an allocation site to the points-to set of the target at the node of an offset.
fn hold_at(
    at: &NamedMethod<'_>,
    offset: u32,
    target: u32,
    site: SiteNo,
    work: &mut Work,
) -> Result<(), IndexFailure>
    requires known { IsNamed at.now }
    requires site { IsNumbered work.old.tables.sites site.0 }
    ensures { (s : Site) → slice_get work.old.tables.sites site.0 ≡ Some s
        → OnOk result (Makes work.old.tables work.new.tables (MadeAt at.now.method.now (names_at at.now) (λ to. known (may_hold to s)) target offset) work.old.steps.items work.new.steps.items) }
{
    let Some(next) = node_at(at, offset) else {
        return Ok(());
    };
    let to = slot_place(at, next, target);
    hold(to, site, work)?;
    Ok(())
}

/// Adds a constraint of a slot to the target at each successor of its node.
pub(crate) fn read_slot(
    at: &NamedMethod<'_>,
    from: SlotAt,
    passing: Passing<'_>,
    target: u32,
    work: &mut Work,
) -> Result<(), IndexFailure>
    requires known { IsNamed at.now }
    requires there { HasNode at.now from.node }
    ensures { (n : Node) → slice_get at.now.method.now.nodes from.node ≡ Some n
        → OnOk result (Makes work.old.tables work.new.tables (ReadsItem at.now.method.now n from.slot target (constraint_by passing.entry)) work.old.steps.items work.new.steps.items) }
{
    let outgoing = Outgoing {
        from: slot_place(at, from.node, from.slot),
        passing,
    };
    pass_after(at, from.node, outgoing, target, work)?;
    Ok(())
}

/// Adds a constraint of a slot to another slot of its node.
pub(crate) fn write_slot(
    at: &NamedMethod<'_>,
    into: SlotAt,
    passing: Passing<'_>,
    value: u32,
    work: &mut Work,
) -> Result<(), IndexFailure>
    requires known { IsNamed at.now }
    requires there { HasNode at.now into.node }
    ensures { (n : Node) → slice_get at.now.method.now.nodes into.node ≡ Some n
        → OnOk result (Makes work.old.tables work.new.tables (WritesItem at.now.method.now n into.slot value (constraint_by passing.entry)) work.old.steps.items work.new.steps.items) }
{
    let from = slot_place(at, into.node, into.slot);
    let to = slot_place(at, into.node, value);
    pass(from, passing, to, work)?;
    Ok(())
}

/// Adds a copy constraint of a slot to another place.
pub(crate) fn leave_slot(
    at: &NamedMethod<'_>,
    from: SlotAt,
    to: FixedPlace,
    work: &mut Work,
) -> Result<(), IndexFailure>
    requires known { IsNamed at.now }
    requires there { HasNode at.now from.node }
    ensures { (n : Node) → slice_get at.now.method.now.nodes from.node ≡ Some n
        → OnOk result (Makes work.old.tables work.new.tables
        (λ x. (h : Holder) × IsSlot at.now.method.now n from.slot h × (x ≡ constrained h (copy_to (holder_of to)))) work.old.steps.items work.new.steps.items) }
{
    let source = slot_place(at, from.node, from.slot);
    pass(source, Passing::To, to, work)?;
    Ok(())
}
