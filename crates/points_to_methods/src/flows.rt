//! Copy constraints from a node to each merge point to which it leads: of the slots that its operation leaves or moves.

ghost use Rattle.std.specs.Prelude.{◌≡◌, ℕ, ◌+◌, ◌<◌, Some, slice_get, OnOk};
ghost use Rattle.op_model.specs.declared.node.Node.{Node};
ghost use Rattle.points_to_constraints.specs.NodeItems.{FlowItem};
ghost use Rattle.points_to_numbers.specs.Steps.{Makes};
ghost use Rattle.points_to_methods.specs.Known.{HasNode, IsNamed, names_at};
ghost use Rattle.points_to_methods.specs.Slots.{FlowsTo, PassesBy, effect_of};
ghost use Rattle.slot_names.specs.Variables.{effect_on};

use crate::effects::{Effect, effect_on};
use crate::named::{NamedMethod, is_merge, node_at, slot_count};
use crate::slots::{SlotAt, pass_slot};
use op_model::Op;
use points_to_numbers::Work;
use program_index::index_failure::IndexFailure;

/// Adds the copy constraints from a node to the merge points among its successors.
pub fn flow_items(at: &NamedMethod<'_>, node: usize, work: &mut Work) -> Result<(), IndexFailure>
    requires known { IsNamed at.now }
    requires there { HasNode at.now node }
    ensures { (n : Node) → slice_get at.now.method.now.nodes node ≡ Some n
        → OnOk result (Makes work.old.tables work.new.tables (FlowItem at.now.method.now n) work.old.steps.items work.new.steps.items) }
{
    let from = &at.method.nodes.as_slice()[node];
    for offset in from.successors.as_slice() {
        flow_to(at, &from.op, node, *offset, work)?;
    }
    Ok(())
}

/// Adds the copy constraints from a node to the one at an offset, if that is a merge point.
fn flow_to(
    at: &NamedMethod<'_>,
    op: &Op,
    node: usize,
    offset: u32,
    work: &mut Work,
) -> Result<(), IndexFailure>
    requires known { IsNamed at.now }
    requires there { HasNode at.now node }
    ensures { OnOk result (Makes work.old.tables work.new.tables (FlowsTo at.now.method.now (names_at at.now) op.now node offset) work.old.steps.items work.new.steps.items) }
{
    let Some(next) = node_at(at, offset) else {
        return Ok(());
    };
    if !is_merge(at, next) {
        return Ok(());
    }
    flow_slots(at, op, node, next, work)?;
    Ok(())
}

/// Adds the copy constraints from a node to the next one, for each slot by what the operation does to it.
fn flow_slots(
    at: &NamedMethod<'_>,
    op: &Op,
    node: usize,
    next: usize,
    work: &mut Work,
) -> Result<(), IndexFailure>
    requires known { IsNamed at.now }
    requires there { HasNode at.now node }
    requires next { HasNode at.now next }
    ensures { OnOk result (Makes work.old.tables work.new.tables
        (λ x. (z : ℕ) × (z < at.now.method.now.slots + at.now.method.now.stack) × PassesBy (names_at at.now) node next z (effect_on z op.now) x) work.old.steps.items work.new.steps.items) }
{
    for slot in 0..slot_count(at.method)? {
        let to = SlotAt { node: next, slot };
        flow_slot(at, effect_on(slot, op), node, to, work)?;
    }
    Ok(())
}

/// Adds the copy constraint of a slot at the next node, by the effect on it.
fn flow_slot(
    at: &NamedMethod<'_>,
    effect: Effect,
    node: usize,
    to: SlotAt,
    work: &mut Work,
) -> Result<(), IndexFailure>
    requires known { IsNamed at.now }
    requires there { HasNode at.now node }
    requires next { HasNode at.now to.node }
    ensures { OnOk result (Makes work.old.tables work.new.tables (PassesBy (names_at at.now) node to.node to.slot (effect_of effect)) work.old.steps.items work.new.steps.items) }
{
    match effect {
        Effect::Keeps => pass_slot(
            at,
            SlotAt {
                node,
                slot: to.slot,
            },
            to,
            work,
        ),
        Effect::Moves(source) => pass_slot(at, SlotAt { node, slot: source }, to, work),
        Effect::Writes => Ok(()),
    }
}
