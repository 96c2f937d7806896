//! Who calls or starts whom.

ghost use Rattle.std.specs.Prelude.{◌≡◌, map, All, Contains, Some, IfOk, OnOk};
ghost use Rattle.jvm_model.specs.declared.number.ClassNo.{ClassNo};
ghost use Rattle.program_model.specs.Numbers.{IsClassNumber};
ghost use Rattle.points_to_rules.specs.declared.running_method.RunningMethod.{RunningMethod};
ghost use Rattle.points_to_rules.specs.WholeMethods.{IsWholeMethod, NamesNumbers};
ghost use Rattle.points_to_rules.specs.Rules.{StartsAt};
ghost use Rattle.ground.specs.Added.{AreAdded, OfOne};
ghost use Rattle.call_graph.specs.Edges.{AreEdges, GoesTo, IsEdgeFrom, IsEdgeOf, OfRunning};
ghost use Rattle.ground.specs.Lists.{nodes_of};

use crate::sets::Sets;
use entry_points::coded_initialisers;
use ground::call_number;
use indexmap::IndexSet;
use jvm_model::MethodNo;
use op_model::{LoweredMethod, Node, NodeRef};
use points_to_rules::RunningMethod;
use program_model::program::Program;
use std::alloc::{AllocError, Global};

/// A method, and one that calls or starts it.
#[derive(Clone, Copy, Debug, PartialEq, Eq, Hash)]
pub(crate) struct Edge {
    pub(crate) callee: MethodNo,
    pub(crate) caller: MethodNo,
}

/// Who calls or starts whom, among methods that may run.
pub(crate) fn edges_of(
    alloc: Global,
    program: &Program,
    methods: &[RunningMethod],
    sets: &Sets,
) -> Result<IndexSet<Edge>, AllocError>
    requires { (m : RunningMethod) → Contains methods.now m → IsWholeMethod program.now m.method.method.0 m.method }
    ensures { IfOk result (λ edges. AreEdges program.now (map nodes_of methods.now) sets.now edges.keys) }
{
    let mut edges = IndexSet::new(alloc);
    for method in methods {
        add_running(alloc, program, &method.method, sets, &mut edges)?;
    }
    Ok(edges)
}

/// Adds that a method calls and starts what its nodes lead to, if it may run.
fn add_running(
    alloc: Global,
    program: &Program,
    method: &LoweredMethod,
    sets: &Sets,
    edges: &mut IndexSet<Edge>,
) -> Result<(), AllocError>
    requires { All (NamesNumbers program.now) method.now.nodes }
    ensures { OnOk result (AreAdded (OfRunning sets.now.running.keys (IsEdgeOf program.now sets.now) method.now) edges.old.keys edges.new.keys) }
{
    if !sets.running.contains(&method.method) {
        return Ok(());
    }
    add_nodes(alloc, program, method, sets, edges)
}

/// Adds that a method calls and starts what its nodes lead to.
fn add_nodes(
    alloc: Global,
    program: &Program,
    method: &LoweredMethod,
    sets: &Sets,
    edges: &mut IndexSet<Edge>,
) -> Result<(), AllocError>
    requires { All (NamesNumbers program.now) method.now.nodes }
    ensures { OnOk result (AreAdded (OfOne (IsEdgeOf program.now sets.now method.now.method) method.now.nodes) edges.old.keys edges.new.keys) }
{
    for node in method.nodes.as_slice() {
        add_targets(method.method, node, sets, edges)?;
        add_initialisers(alloc, program, method.method, node, edges)?;
    }
    Ok(())
}

/// Adds that a method calls the targets of a node of it.
fn add_targets(
    method: MethodNo,
    node: &Node,
    sets: &Sets,
    edges: &mut IndexSet<Edge>,
) -> Result<(), AllocError>
    ensures { OnOk result (AreAdded (IsEdgeFrom method (GoesTo sets.now method node.now)) edges.old.keys edges.new.keys) }
{
    let call = NodeRef {
        method: Some(method),
        offset: node.offset,
    };
    match call_number(&sets.calls, call) {
        Some(number) => add_callees(sets.targets.at(number), method, edges),
        None => Ok(()),
    }
}

/// Adds that a method starts the initialisers that a node of it may start.
fn add_initialisers(
    alloc: Global,
    program: &Program,
    method: MethodNo,
    node: &Node,
    edges: &mut IndexSet<Edge>,
) -> Result<(), AllocError>
    requires { (c : ClassNo) → node.now.trigger ≡ Some c → IsClassNumber program.now c.0 }
    ensures { OnOk result (AreAdded (IsEdgeFrom method (StartsAt program.now node.now)) edges.old.keys edges.new.keys) }
{
    let Some(class) = node.trigger else {
        return Ok(());
    };
    let initialisers = coded_initialisers(alloc, program, class)?;
    add_callees(&initialisers, method, edges)
}

/// Adds that a method calls or starts others.
fn add_callees(
    callees: &[MethodNo],
    caller: MethodNo,
    edges: &mut IndexSet<Edge>,
) -> Result<(), AllocError>
    ensures { OnOk result (AreAdded (IsEdgeFrom caller (Contains callees.now)) edges.old.keys edges.new.keys) }
{
    for callee in callees {
        edges.insert(Edge {
            callee: *callee,
            caller,
        })?;
    }
    Ok(())
}
