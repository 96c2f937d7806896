//! What methods that may run write by themselves.

ghost use Rattle.std.specs.Prelude.{map, IfOk, OnOk};
ghost use Rattle.ground.specs.Added.{AreAdded, OfOne};
ghost use Rattle.call_graph.specs.Edges.{AreStores, IsStoreOf, OfRunning};
ghost use Rattle.ground.specs.Lists.{nodes_of};

use ground::FieldWrite;
use indexmap::IndexSet;
use jvm_model::MethodNo;
use op_model::{LoweredMethod, Node, Op};
use points_to_rules::RunningMethod;
use std::alloc::{AllocError, Global};

/// The instance fields that the nodes of methods store to, of those that may run.
pub(crate) fn stores_of(
    alloc: Global,
    methods: &[RunningMethod],
    running: &IndexSet<MethodNo>,
) -> Result<IndexSet<FieldWrite>, AllocError>
    ensures { IfOk result (λ writes. AreStores (map nodes_of methods.now) running.now.keys writes.keys) }
{
    let mut writes = IndexSet::new(alloc);
    for method in methods {
        add_running(&method.method, running, &mut writes)?;
    }
    Ok(writes)
}

/// Adds what the nodes of a method store to, if it may run.
fn add_running(
    method: &LoweredMethod,
    running: &IndexSet<MethodNo>,
    writes: &mut IndexSet<FieldWrite>,
) -> Result<(), AllocError>
    ensures { OnOk result (AreAdded (OfRunning running.now.keys IsStoreOf method.now) writes.old.keys writes.new.keys) }
{
    if !running.contains(&method.method) {
        return Ok(());
    }
    add_nodes(method.method, method.nodes.as_slice(), writes)
}

/// Adds what nodes of a method store to.
fn add_nodes(
    method: MethodNo,
    nodes: &[Node],
    writes: &mut IndexSet<FieldWrite>,
) -> Result<(), AllocError>
    ensures { OnOk result (AreAdded (OfOne (IsStoreOf method) nodes.now) writes.old.keys writes.new.keys) }
{
    for node in nodes {
        add_node(method, node, writes)?;
    }
    Ok(())
}

/// Adds what a node of a method stores to.
fn add_node(
    method: MethodNo,
    node: &Node,
    writes: &mut IndexSet<FieldWrite>,
) -> Result<(), AllocError>
    ensures { OnOk result (AreAdded (IsStoreOf method node.now) writes.old.keys writes.new.keys) }
{
    let Op::Store { field, .. } = &node.op else {
        return Ok(());
    };
    writes.insert(FieldWrite {
        method,
        field: *field,
    })?;
    Ok(())
}
