//! Copy constraints from the parameters of a method to the slots at its first node, where that is a merge point.

ghost use Rattle.std.specs.Prelude.{◌≡◌, ℕ, ◌+◌, ◌<◌, Some, slice_get, OnOk};
ghost use Rattle.op_model.specs.declared.node.Node.{Node};
ghost use Rattle.points_to_constraints.specs.NodeItems.{EnterItem};
ghost use Rattle.points_to_numbers.specs.Steps.{Makes};
ghost use Rattle.points_to_methods.specs.Known.{HasNode, IsNamed, names_at};
ghost use Rattle.points_to_methods.specs.Slots.{EntersSlot};

use crate::adding::{FixedPlace, Passing, pass};
use crate::named::{NamedMethod, is_merge, slot_count, slot_place};
use points_to_numbers::Work;
use program_index::index_failure::IndexFailure;
use slot_names::Variable;

/// Adds the copy constraints from the parameters, at the first node.
pub fn enter_items(at: &NamedMethod<'_>, node: usize, work: &mut Work) -> Result<(), IndexFailure>
    requires known { IsNamed at.now }
    requires there { HasNode at.now node }
    ensures { (n : Node) → slice_get at.now.method.now.nodes node ≡ Some n
        → OnOk result (Makes work.old.tables work.new.tables (EnterItem at.now.method.now.method at.now.method.now n) work.old.steps.items work.new.steps.items) }
{
    if node != 0 {
        return Ok(());
    }
    if !is_merge(at, 0) {
        return Ok(());
    }
    enter_slots(at, work)?;
    Ok(())
}

/// Adds a copy constraint from each parameter to its slot at the first node.
fn enter_slots(at: &NamedMethod<'_>, work: &mut Work) -> Result<(), IndexFailure>
    requires known { IsNamed at.now }
    requires there { HasNode at.now 0 }
    ensures { OnOk result (Makes work.old.tables work.new.tables (λ x. (z : ℕ) × (z < at.now.method.now.slots + at.now.method.now.stack)
        × EntersSlot (names_at at.now) at.now.method.now.method z x) work.old.steps.items work.new.steps.items) }
{
    for slot in 0..slot_count(at.method)? {
        let method = at.method.method;
        let parameter = FixedPlace::Variable(Variable::Parameter { method, slot });
        pass(parameter, Passing::To, slot_place(at, 0, slot), work)?;
    }
    Ok(())
}
