//! Copy constraints from the local variables at a node to those where its handlers begin.

ghost use Rattle.std.specs.Prelude.{◌≡◌, Some, slice_get, OnOk};
ghost use Rattle.op_model.specs.declared.node.Node.{Node};
ghost use Rattle.points_to_constraints.specs.NodeItems.{HandleItem};
ghost use Rattle.points_to_numbers.specs.Steps.{Makes};
ghost use Rattle.points_to_methods.specs.Known.{HasNode, IsNamed, names_at};
ghost use Rattle.points_to_methods.specs.Slots.{HandsTo};

use crate::named::{NamedMethod, node_at};
use crate::slots::{SlotAt, pass_slot};
use points_to_numbers::Work;
use program_index::index_failure::IndexFailure;

/// Adds the copy constraints from a node to its handlers.
pub fn handle_items(at: &NamedMethod<'_>, node: usize, work: &mut Work) -> Result<(), IndexFailure>
    requires known { IsNamed at.now }
    requires there { HasNode at.now node }
    ensures { (n : Node) → slice_get at.now.method.now.nodes node ≡ Some n
        → OnOk result (Makes work.old.tables work.new.tables (HandleItem at.now.method.now n) work.old.steps.items work.new.steps.items) }
{
    let handlers = &at.method.nodes.as_slice()[node].handlers;
    for handler in handlers.as_slice() {
        handle_at(at, node, handler.target, work)?;
    }
    Ok(())
}

/// Adds a copy constraint from each local variable at a node to the same one at the handler of an offset.
fn handle_at(
    at: &NamedMethod<'_>,
    node: usize,
    offset: u32,
    work: &mut Work,
) -> Result<(), IndexFailure>
    requires known { IsNamed at.now }
    requires there { HasNode at.now node }
    ensures { OnOk result (Makes work.old.tables work.new.tables (HandsTo at.now.method.now (names_at at.now) node offset) work.old.steps.items work.new.steps.items) }
{
    let Some(next) = node_at(at, offset) else {
        return Ok(());
    };
    for slot in 0..at.method.slots {
        let from = SlotAt { node, slot };
        let to = SlotAt { node: next, slot };
        pass_slot(at, from, to, work)?;
    }
    Ok(())
}
