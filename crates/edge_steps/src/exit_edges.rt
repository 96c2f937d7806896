//! What follows from an edge to a node and one to an exit of a method that the node enters.

ghost use Rattle.std.specs.Prelude.{◌≡◌, ◌≤◌, ◌^◌, [], ◌∷◌, length, List, Some, Contains, OnOk};
ghost use Rattle.op_model.specs.declared.lowered.LoweredMethod.{LoweredMethod as RuleMethod};
ghost use Rattle.op_model.specs.declared.op.Call.{Call as RuleCall};
ghost use Rattle.op_model.specs.declared.op.Op.TheVariants.{Call as IsCall};
ghost use Rattle.machine_bytecode.specs.Objects.{Subject};
ghost use Rattle.points_to_rules.specs.Facts.{Fact};
ghost use Rattle.ground.specs.Findings.{gives_listed};
ghost use Rattle.stage_facts.specs.Facts.{SiteFact};
ghost use Rattle.stage_facts.specs.Plain.{fact_of};
ghost use Rattle.stage_transfer.specs.Settings.{Setting};
ghost use Rattle.stage_transfer.specs.Stages.{transfer_of};
ghost use Rattle.stage_views.specs.Views.{IsSettingBy};
ghost use Rattle.stage_edges.specs.Rules.{before, edge};
ghost use Rattle.edge_steps.specs.Steps.{AreFollowing, IsLookedAt};

use crate::conclusions::Conclusion;
use crate::exit::Exit;
use crate::method_exits::{add_from_call, add_from_methods};
use crate::node_view::NodeView;
use stage_facts::PlainFact;
use stage_views::{Entering, NodeSlots};
use std::alloc::AllocError;

/// Writes what follows, by one instance of a rule, from an edge with this fact to a node, and an edge to a spot of a method that the node enters: nothing,
/// where the spot is no exit or the method is entered with another fact. What stood in `conclusions` before is gone.
pub fn from_exit<V: NodeSlots>(
    view: &NodeView<'_, '_, V>,
    fact: &PlainFact,
    exit: Exit<'_>,
    conclusions: &mut Vec<Conclusion>,
) -> Result<(), AllocError>
    requires { (c : RuleCall) → view.now.node.now.op ≡ IsCall c → length c.arguments ≤ 2 ^ 32 }
    ensures { OnOk result ((x : Subject) (methods : List RuleMethod) (facts : List Fact) (w : Setting) → IsSettingBy view.now.setting.now w
        → IsLookedAt x (gives_listed methods) (Contains facts) w view.now.setting.now (V.knows view.now.slots.now) view.now.method view.now.node.now view.now.ways.now
        → AreFollowing x (gives_listed methods) (Contains facts) (transfer_of w) view.now.method
        (λ (e : SiteFact). edge view.now.method e (before view.now.node.now) (fact_of fact.now)
        ∷ edge (Some exit.entry.method) (fact_of exit.entry.entry.now) exit.entry.spot (fact_of exit.entry.fact.now) ∷ []) conclusions.new.items []) }
{
    conclusions.clear();
    add_from_call(view, fact, exit, conclusions)?;
    let started = view.ways.started.as_slice();
    add_from_methods(view, Entering::Trigger, started, fact, exit, conclusions)
}
