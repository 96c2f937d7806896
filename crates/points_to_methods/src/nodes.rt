//! The items of a node.

ghost use Rattle.std.specs.Prelude.{◌≡◌, Some, slice_get, OnOk};
ghost use Rattle.op_model.specs.declared.node.Node.{Node};
ghost use Rattle.points_to_constraints.specs.NodeItems.{NodeItem, OpItem};
ghost use Rattle.points_to_methods.specs.Known.{HasNode, IsNamed};
ghost use Rattle.points_to_methods.specs.NodeCalls.{AddsNode};

use crate::calls::call_items;
use crate::statics::load_static;
use crate::triggers::trigger_items;
use crate::{NamedMethod, enter_items, flow_items, handle_items, op_items, raise_items};
use op_model::Op;
use points_to_numbers::Work;
use program_index::index_failure::IndexFailure;

/// Adds what a node leads to.
pub(crate) fn node_items(
    at: &NamedMethod<'_>,
    node: usize,
    work: &mut Work,
) -> Result<(), IndexFailure>
    requires known { IsNamed at.now }
    requires there { HasNode at.now node }
    ensures { (n : Node) → slice_get at.now.method.now.nodes node ≡ Some n
        → OnOk result (AddsNode at.now.method.now n work.old.tables work.new.tables (NodeItem at.now.program.now at.now.method.now.method at.now.method.now n) work.old.steps.items work.new.steps.items) }
{
    flow_items(at, node, work)?;
    enter_items(at, node, work)?;
    handle_items(at, node, work)?;
    operation_items(at, node, work)?;
    raise_items(at, node, work)?;
    trigger_items(at, node, work)?;
    Ok(())
}

/// Adds what the operation of a node leads to.
fn operation_items(at: &NamedMethod<'_>, node: usize, work: &mut Work) -> Result<(), IndexFailure>
    requires known { IsNamed at.now }
    requires there { HasNode at.now node }
    ensures { (n : Node) → slice_get at.now.method.now.nodes node ≡ Some n
        → OnOk result (AddsNode at.now.method.now n work.old.tables work.new.tables (OpItem n.op at.now.program.now at.now.method.now.method at.now.method.now n) work.old.steps.items work.new.steps.items) }
{
    let op = &at.method.nodes.as_slice()[node].op;
    match op {
        Op::Call(call) => call_items(at, node, call, work),
        Op::LoadStatic { field, target } => load_static(at, node, *field, *target, work),
        _ => op_items(at, node, op, work),
    }
}
