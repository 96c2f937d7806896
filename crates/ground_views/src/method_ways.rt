//! The ways out of each node of the ground, and of the start of the program.

ghost use Rattle.std.specs.Prelude.{◌≡◌, ◌↔◌, ◌≤◌, ◌<◌, ◌+◌, length, slice_get, All, Some, IfErr, IfOk, IsTrue};
ghost use Rattle.op_model.specs.declared.lowered.LoweredMethod.{LoweredMethod as RuleMethod};
ghost use Rattle.op_model.specs.declared.node.Node.{Node as RuleNode};
ghost use Rattle.points_to_rules.specs.WholeMethods.{NamesNumbers};
ghost use Rattle.ground.specs.Findings.{HasNode, IsNodeAt};
ghost use Rattle.ground_views.specs.Views.{AreMethodWays, AreNodeWays, AreOneForOne, AreStartWays, AreWaysOfMethods, HasFewArguments, HasFewSlots, IsViewsEnd};

use crate::fault::{EdgesFailure, EdgesFault};
use failure::Failure;
use ground::{Ground, NodePlace};
use node_ways::{NodeWays, ways_at, ways_of_start};
use op_model::{LoweredMethod, Node, Op};
use stage_calls::has_slots;
use stage_views::Entering;
use std::alloc::{AllocError, Global};

/// The ways out of each node of the start of the program.
pub(crate) fn ways_of_start_nodes<'p>(
    alloc: Global,
    ground: &Ground<'p>,
    start: &LoweredMethod,
) -> Result<Vec<NodeWays<'p>>, AllocError>
    requires { All (NamesNumbers ground.now.program) start.now.nodes }
    ensures { IfOk result (λ ways. AreOneForOne (AreStartWays ground.now) start.now.nodes ways.items) }
{
    let mut ways = Vec::new(alloc);
    for node in start.nodes.as_slice() {
        ways.push(ways_of_start(alloc, ground, node)?)?;
    }
    Ok(ways)
}

/// The ways out of each node of each method, as methods and their nodes stand.
pub(crate) fn ways_of_methods<'p>(
    alloc: Global,
    ground: &Ground<'p>,
) -> Result<Vec<Vec<NodeWays<'p>>>, EdgesFailure>
    ensures are { IfOk result (λ ways. AreWaysOfMethods ground.now ground.now.methods ways.items) }
    ensures end { IfErr result (IsViewsEnd ground.now) }
{
    let mut ways = Vec::new(alloc);
    for place in 0..ground.method_count() {
        ways.push(ways_of_method(alloc, ground, place)?)?;
    }
    Ok(ways)
}

/// The ways out of each node of the method at a place.
fn ways_of_method<'p>(
    alloc: Global,
    ground: &Ground<'p>,
    place: usize,
) -> Result<Vec<NodeWays<'p>>, EdgesFailure>
    requires { place < length ground.now.methods }
    ensures are { IfOk result (λ ways. (l : RuleMethod) → slice_get ground.now.methods place ≡ Some l → AreMethodWays ground.now l ways.items) }
    ensures end { IfErr result (IsViewsEnd ground.now) }
{
    let method = ground.method(place);
    if !has_few_slots(method) {
        return Err(Failure::Cause(EdgesFault::TooMany));
    }
    let mut ways = Vec::new(alloc);
    for node in 0..method.nodes.len() {
        let at = NodePlace {
            method: place,
            node,
        };
        ways.push(ways_of_node(alloc, ground, at)?)?;
    }
    Ok(ways)
}

/// The ways out of the node at a place.
fn ways_of_node<'p>(
    alloc: Global,
    ground: &Ground<'p>,
    at: NodePlace,
) -> Result<NodeWays<'p>, EdgesFailure>
    requires { HasNode ground.now at }
    ensures are { IfOk result (λ ways. (l : RuleMethod) (n : RuleNode) → slice_get ground.now.methods at.method ≡ Some l → slice_get l.nodes at.node ≡ Some n
        → AreNodeWays ground.now l n ways) }
    ensures end { IfErr result (IsViewsEnd ground.now) }
{
    if !has_few_arguments(ground.node(at)) {
        return Err(Failure::Cause(EdgesFault::TooMany));
    }
    Ok(ways_at(alloc, ground, at)?)
}

/// Whether 32 bits count the slots of a method.
fn has_few_slots(method: &LoweredMethod) -> bool
    ensures { IsTrue result ↔ HasFewSlots method.now }
{
    method.slots.checked_add(method.stack).is_some()
}

/// Whether a call has no more units of arguments than there are slots.
fn has_few_arguments(node: &Node) -> bool
    ensures { IsTrue result ↔ HasFewArguments node.now }
{
    match &node.op {
        Op::Call(call) => has_slots(Entering::Call(call)),
        Op::Assign(_) => true,
        Op::Load { .. } => true,
        Op::Store { .. } => true,
        Op::LoadElement { .. } => true,
        Op::StoreElement { .. } => true,
        Op::LoadStatic { .. } => true,
        Op::StoreStatic { .. } => true,
        Op::New { .. } => true,
        Op::NewArray { .. } => true,
        Op::Constant { .. } => true,
        Op::Return { .. } => true,
        Op::Throw { .. } => true,
        Op::Cast { .. } => true,
        Op::Probe { .. } => true,
    }
}
