//! The sites of nodes: of what they make, and of what their calls are given.

ghost use Rattle.std.specs.Prelude.{Contains, OnOk};
ghost use Rattle.jvm_model.specs.declared.number.MethodNo.{MethodNo as RuleMethodNo};
ghost use Rattle.program_model.specs.Numbers.{IsClassNumber, IsMethodNumber};
ghost use Rattle.op_model.specs.declared.node.NodeRef.{NodeRef as RuleNodeRef};
ghost use Rattle.points_to_rules.specs.Facts.{may_call};
ghost use Rattle.points_to_rules.specs.Rules.{node_of};
ghost use Rattle.ground.specs.Added.{AreAdded, OfOne};
ghost use Rattle.report_sites.specs.Found.{IsSiteOf, TargetGives};

use crate::sites::{TrackedClass, add_class};
use crate::targets::add_target;
use ground::Ground;
use jvm_model::MethodNo;
use op_model::{Node, NodeRef, Op};
use site_report::TrackedSite;
use std::alloc::AllocError;

/// Adds the sites of the new objects that targets of a call give.
fn add_each_target(
    wanted: &TrackedClass<'_>,
    method: MethodNo,
    offset: u32,
    targets: &[MethodNo],
    sites: &mut Vec<TrackedSite>,
) -> Result<(), AllocError>
    requires upper { IsClassNumber wanted.now.program.now wanted.now.upper.0 }
    requires targets { (m : RuleMethodNo) → Contains targets.now m → IsMethodNumber wanted.now.program.now m.0 }
    ensures { OnOk result (AreAdded (OfOne (TargetGives wanted.now.program.now wanted.now.upper method offset) targets.now) sites.old.items sites.new.items) }
{
    for target in targets {
        add_target(wanted, method, offset, *target, sites)?;
    }
    Ok(())
}

/// Adds the sites of the new objects that the call of a node may be given.
fn add_given(
    wanted: &TrackedClass<'_>,
    ground: &Ground<'_>,
    method: MethodNo,
    node: &Node,
    sites: &mut Vec<TrackedSite>,
) -> Result<(), AllocError>
    requires upper { IsClassNumber wanted.now.program.now wanted.now.upper.0 }
    requires targets { (call : RuleNodeRef) (m : RuleMethodNo) → Contains ground.now.facts (may_call call m) → IsMethodNumber wanted.now.program.now m.0 }
    ensures { OnOk result (AreAdded (λ t. (target : RuleMethodNo) × Contains ground.now.facts (may_call (node_of method node.now) target)
        × TargetGives wanted.now.program.now wanted.now.upper method node.now.offset target t) sites.old.items sites.new.items) }
{
    let call = NodeRef {
        method: Some(method),
        offset: node.offset,
    };
    let targets = ground.targets_of(call);
    add_each_target(wanted, method, node.offset, targets, sites)
}

/// Adds the sites of a node.
fn add_node(
    wanted: &TrackedClass<'_>,
    ground: &Ground<'_>,
    method: MethodNo,
    node: &Node,
    sites: &mut Vec<TrackedSite>,
) -> Result<(), AllocError>
    requires upper { IsClassNumber wanted.now.program.now wanted.now.upper.0 }
    requires targets { (call : RuleNodeRef) (m : RuleMethodNo) → Contains ground.now.facts (may_call call m) → IsMethodNumber wanted.now.program.now m.0 }
    ensures { OnOk result (AreAdded (IsSiteOf wanted.now.program.now ground.now wanted.now.upper method node.now) sites.old.items sites.new.items) }
{
    match &node.op {
        Op::New { site, .. } => {
            let at = NodeRef {
                method: site.method,
                offset: site.offset,
            };
            add_class(wanted, site.kind, at, site.class.as_slice(), sites)
        }
        Op::Call(_) => add_given(wanted, ground, method, node, sites),
        _ => Ok(()),
    }
}

/// Adds the sites of nodes of a method.
pub(crate) fn add_nodes(
    wanted: &TrackedClass<'_>,
    ground: &Ground<'_>,
    method: MethodNo,
    nodes: &[Node],
    sites: &mut Vec<TrackedSite>,
) -> Result<(), AllocError>
    requires upper { IsClassNumber wanted.now.program.now wanted.now.upper.0 }
    requires targets { (call : RuleNodeRef) (m : RuleMethodNo) → Contains ground.now.facts (may_call call m) → IsMethodNumber wanted.now.program.now m.0 }
    ensures { OnOk result (AreAdded (OfOne (IsSiteOf wanted.now.program.now ground.now wanted.now.upper method) nodes.now) sites.old.items sites.new.items) }
{
    for node in nodes {
        add_node(wanted, ground, method, node, sites)?;
    }
    Ok(())
}
