//! The methods of class files that a node may enter: targets of its call, and initialisers that it may start (JVMS 5.5).

ghost use Rattle.std.specs.Prelude.{◌≡◌, ◌↔◌, Contains, IfOk, OnOk, Some};
ghost use Rattle.jvm_model.specs.declared.number.ClassNo.{ClassNo as RuleClassNo};
ghost use Rattle.jvm_model.specs.declared.number.MethodNo.{MethodNo as RuleMethodNo};
ghost use Rattle.program_model.specs.Numbers.{IsClassNumber, IsMethodNumber};
ghost use Rattle.machine_bytecode.specs.Objects.{Subject};
ghost use Rattle.points_to_rules.specs.Calls.{IsOfFile};
ghost use Rattle.points_to_rules.specs.Facts.{may_call};
ghost use Rattle.points_to_rules.specs.Rules.{StartsAt};
ghost use Rattle.stage_edges.specs.Rules.{node_at};
ghost use Rattle.node_ways.specs.Parts.{AddsFound, AreFound, IsEnteredAs};
ghost use Rattle.node_ways.specs.Ways.{AreEntered, IsCalled};

use crate::kinds::call_of;
use crate::landings::method_landings;
use crate::ways::EnteredMethod;
use entry_points::coded_initialisers;
use ground::Ground;
use jvm_model::MethodNo;
use op_model::{Node, NodeRef};
use program_model::method_body::MethodBody;
use std::alloc::{AllocError, Global};

/// The methods to which a call goes that is a node of a method, or of the start of the program.
pub(crate) fn targets_at<'g>(
    ground: &'g Ground<'_>,
    method: Option<MethodNo>,
    node: &Node,
) -> &'g [MethodNo]
    ensures targets { (m : RuleMethodNo) → Contains result.now m ↔ Contains ground.now.facts (may_call (node_at method node.now) m) }
    ensures numbers { (m : RuleMethodNo) → Contains result.now m → IsMethodNumber ground.now.program m.0 }
{
    ground.well_formed();
    ground.targets_of(NodeRef {
        method,
        offset: node.offset,
    })
}

/// Adds a method with where what it throws goes at a node, if it is one of a class file.
fn add_entered(
    alloc: Global,
    ground: &Ground<'_>,
    node: &Node,
    target: MethodNo,
    entered: &mut Vec<EnteredMethod>,
) -> Result<(), AllocError>
    requires { IsMethodNumber ground.now.program target.0 }
    ensures { OnOk result (AddsFound (IsEnteredAs ground.now node.now target) (IsOfFile ground.now.program target) entered.old.items entered.new.items) }
{
    match ground.program().method_body(target) {
        MethodBody::InFile { .. } => push_entered(alloc, ground, node, target, entered),
        MethodBody::Described(_) => Ok(()),
    }
}

/// Adds a method of a class file with where what it throws goes at a node.
fn push_entered(
    alloc: Global,
    ground: &Ground<'_>,
    node: &Node,
    target: MethodNo,
    entered: &mut Vec<EnteredMethod>,
) -> Result<(), AllocError>
    requires { IsOfFile ground.now.program target }
    ensures { OnOk result (AddsFound (IsEnteredAs ground.now node.now target) (IsOfFile ground.now.program target) entered.old.items entered.new.items) }
{
    let landings = method_landings(alloc, ground, node, target)?;
    entered.push(EnteredMethod {
        method: target,
        landings,
    })?;
    Ok(())
}

/// Those of the methods that are of class files, each with where what it throws goes at a node.
fn entered_of(
    alloc: Global,
    ground: &Ground<'_>,
    node: &Node,
    targets: &[MethodNo],
) -> Result<Vec<EnteredMethod>, AllocError>
    requires { (m : RuleMethodNo) → Contains targets.now m → IsMethodNumber ground.now.program m.0 }
    ensures { IfOk result (λ entered. AreFound (IsEnteredAs ground.now node.now) (IsOfFile ground.now.program) targets.now entered.items) }
{
    let mut entered = Vec::new(alloc);
    for target in targets {
        add_entered(alloc, ground, node, *target, &mut entered)?;
    }
    Ok(entered)
}

/// The methods of class files that the call of a node may enter.
pub(crate) fn called_methods(
    alloc: Global,
    ground: &Ground<'_>,
    method: Option<MethodNo>,
    node: &Node,
) -> Result<Vec<EnteredMethod>, AllocError>
    ensures { IfOk result (λ called. (x : Subject) → x.program ≡ ground.now.program
        → AreEntered x (Contains ground.now.facts) node.now (IsCalled x (Contains ground.now.facts) method node.now) called.items) }
{
    match call_of(&node.op) {
        Some(_) => entered_of(alloc, ground, node, targets_at(ground, method, node)),
        None => Ok(Vec::new(alloc)),
    }
}

/// The initialisers that a node may start.
pub(crate) fn started_methods(
    alloc: Global,
    ground: &Ground<'_>,
    node: &Node,
) -> Result<Vec<EnteredMethod>, AllocError>
    requires { (c : RuleClassNo) → node.now.trigger ≡ Some c → IsClassNumber ground.now.program c.0 }
    ensures { IfOk result (λ started. (x : Subject) → x.program ≡ ground.now.program
        → AreEntered x (Contains ground.now.facts) node.now (StartsAt x.program node.now) started.items) }
{
    let Some(class) = node.trigger else {
        return Ok(Vec::new(alloc));
    };
    let initialisers = coded_initialisers(alloc, ground.program(), class)?;
    entered_of(alloc, ground, node, &initialisers)
}
