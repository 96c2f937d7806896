//! What a call leads to as a node: that it goes to its chosen target, or that it selects its targets.

ghost use Rattle.std.specs.Prelude.{◌≡◌, Some, slice_get, OnOk};
ghost use Rattle.std.specs.Option.{option_flatten};
ghost use Rattle.machine_nodes.specs.NodeSteps.{is_selecting_kind};
ghost use Rattle.op_model.specs.declared.node.Node.{Node};
ghost use Rattle.op_model.specs.declared.op.Op.TheVariants as operations;
ghost use Rattle.points_to_constraints.specs.Items.{CallSite};
ghost use Rattle.points_to_constraints.specs.NodeItems.{CallNodeItem, IsCallSite};
ghost use Rattle.points_to_methods.specs.CallParts.{ChosenItem, SelectingItem};
ghost use Rattle.points_to_methods.specs.NodeCalls.{AddsNode};
ghost use Rattle.points_to_methods.specs.Known.{HasNode, IsNamed};
ghost use Rattle.points_to_numbers.specs.Numbered.{IsNumbered, Numbered};
ghost use Rattle.points_to_numbers.specs.Steps.{Adds, Makes};

use crate::call_sites::call_site;
use crate::{NamedMethod, key_of, slot_place};
use jvm_model::MethodNo;
use op_model::{Call, CallKind};
use points_to_numbers::{CallNo, Constraint, Item, Work};
use program_index::index_failure::IndexFailure;

/// Adds what the call of a node leads to. The call gets a number.
pub(crate) fn call_items(
    at: &NamedMethod<'_>,
    node: usize,
    call: &Call,
    work: &mut Work,
) -> Result<(), IndexFailure>
    requires known { IsNamed at.now }
    requires there { HasNode at.now node }
    ensures { (n : Node) → slice_get at.now.method.now.nodes node ≡ Some n → n.op ≡ operations.Call call.now
        → OnOk result (AddsNode at.now.method.now n work.old.tables work.new.tables (CallNodeItem at.now.method.now.method at.now.method.now n call.now) work.old.steps.items work.new.steps.items) }
{
    let number = call_site(work.alloc, at, node, call, &mut work.tables)?;
    chosen_items(number, call.chosen, &mut work.steps)?;
    select_items(at, node, call, number, work)?;
    Ok(())
}

/// Adds that a call goes to the target that was chosen for it, if there is one.
fn chosen_items(
    number: CallNo,
    chosen: Option<MethodNo>,
    steps: &mut Vec<Item>,
) -> Result<(), IndexFailure>
    ensures { (n : Numbered) (site : CallSite) → slice_get n.calls number.0 ≡ Some site
        → OnOk result (Adds n (ChosenItem site.at chosen) steps.old.items steps.new.items) }
{
    let Some(target) = chosen else {
        return Ok(());
    };
    steps.push(Item::Calls(number, target))?;
    Ok(())
}

/// Adds a dispatch constraint of the first argument of a call, if the call selects its targets by that.
fn select_items(
    at: &NamedMethod<'_>,
    node: usize,
    call: &Call,
    number: CallNo,
    work: &mut Work,
) -> Result<(), IndexFailure>
    requires known { IsNamed at.now }
    requires there { HasNode at.now node }
    requires numbered { IsNumbered work.old.tables.calls number.0 }
    ensures { (n : Node) (site : CallSite) → slice_get at.now.method.now.nodes node ≡ Some n → slice_get work.old.tables.calls number.0 ≡ Some site
        → IsCallSite at.now.method.now.method at.now.method.now n call.now site
        → OnOk result (Makes work.old.tables work.new.tables (SelectingItem call.now.kind site) work.old.steps.items work.new.steps.items) }
{
    if !is_selecting(call.kind) {
        return Ok(());
    }
    let Some(slot) = first_argument(call) else {
        return Ok(());
    };
    let place = key_of(slot_place(at, node, slot));
    work.add_constraint(place, Constraint::Dispatch(number))?;
    Ok(())
}

/// The slot of the first argument of a call, if that is a reference.
fn first_argument(call: &Call) -> Option<u32>
    ensures { result ≡ option_flatten (slice_get call.now.arguments 0) }
{
    call.arguments.as_slice().first().copied().flatten()
}

/// Whether a call selects its target by the object that it is made on.
fn is_selecting(kind: CallKind) -> bool
    ensures { result ≡ is_selecting_kind kind }
{
    match kind {
        CallKind::Virtual => true,
        CallKind::Special => false,
        CallKind::Static => false,
        CallKind::Interface => true,
    }
}
