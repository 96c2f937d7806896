//! Copy constraints from a slot at a node to a slot at another one.

ghost use Rattle.std.specs.Prelude.{OnOk};
ghost use Rattle.points_to_numbers.specs.Steps.{Makes};
ghost use Rattle.points_to_methods.specs.Known.{HasNode, IsNamed, names_at};
ghost use Rattle.points_to_methods.specs.Slots.{PassesSlot};

use crate::adding::{Passing, pass};
use crate::named::{NamedMethod, slot_place};
use points_to_numbers::Work;
use program_index::index_failure::IndexFailure;

/// A slot at a node.
#[derive(Clone, Copy)]
pub(crate) struct SlotAt {
    pub(crate) node: usize,
    pub(crate) slot: u32,
}

/// Adds a copy constraint from a slot at a node to a slot at another one.
pub(crate) fn pass_slot(
    at: &NamedMethod<'_>,
    from: SlotAt,
    to: SlotAt,
    work: &mut Work,
) -> Result<(), IndexFailure>
    requires known { IsNamed at.now }
    requires from { HasNode at.now from.node }
    requires to { HasNode at.now to.node }
    ensures { OnOk result (Makes work.old.tables work.new.tables (PassesSlot (names_at at.now) from.node from.slot to.node to.slot) work.old.steps.items work.new.steps.items) }
{
    let source = slot_place(at, from.node, from.slot);
    let target = slot_place(at, to.node, to.slot);
    pass(source, Passing::To, target, work)?;
    Ok(())
}
