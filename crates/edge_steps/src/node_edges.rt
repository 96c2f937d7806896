//! What follows from an edge to a node.

ghost use Rattle.std.specs.Prelude.{◌≡◌, ◌≤◌, ◌^◌, [], ◌∷◌, length, List, Contains, OnOk};
ghost use Rattle.op_model.specs.declared.lowered.LoweredMethod.{LoweredMethod as RuleMethod};
ghost use Rattle.op_model.specs.declared.op.Call.{Call as RuleCall};
ghost use Rattle.op_model.specs.declared.op.Op.TheVariants.{Call as IsCall};
ghost use Rattle.machine_bytecode.specs.Objects.{Subject};
ghost use Rattle.points_to_rules.specs.Facts.{Fact};
ghost use Rattle.ground.specs.Added.{AreAdded, OfOne};
ghost use Rattle.ground.specs.Findings.{gives_listed};
ghost use Rattle.stage_facts.specs.Facts.{SiteFact};
ghost use Rattle.stage_facts.specs.Plain.{fact_of};
ghost use Rattle.stage_transfer.specs.Settings.{Setting};
ghost use Rattle.stage_transfer.specs.Stages.{transfer_of};
ghost use Rattle.stage_views.specs.Views.{facts_of, IsSettingBy};
ghost use Rattle.stage_edges.specs.Rules.{before, edge};
ghost use Rattle.edge_steps.specs.Parts.{BegunFrom, Calls, Done, Starts};
ghost use Rattle.edge_steps.specs.Steps.{AreFollowing, IsLookedAt};

use crate::conclusions::{Conclusion, EnteredWith, Following};
use crate::described::add_described;
use crate::kinds::is_return;
use crate::node_view::NodeView;
use crate::spots::{add_at_each, add_begun, add_facts};
use crate::thrown::add_raised;
use crate::unchanged::{add_unchanged, stays};
use node_ways::call_of;
use op_model::{Call, Spot};
use stage_calls::{call_facts, entered};
use stage_facts::PlainFact;
use stage_flow::after_node;
use stage_views::{Entering, Facts, NodeSlots};
use std::alloc::AllocError;

/// Writes what follows, by one instance of a rule, from an edge with this fact to a node. What stood in `following` before is gone.
pub fn from_node<V: NodeSlots>(
    view: &NodeView<'_, '_, V>,
    fact: &PlainFact,
    following: &mut Following,
) -> Result<(), AllocError>
    requires { (c : RuleCall) → view.now.node.now.op ≡ IsCall c → length c.arguments ≤ 2 ^ 32 }
    ensures { OnOk result ((x : Subject) (methods : List RuleMethod) (facts : List Fact) (w : Setting) → IsSettingBy view.now.setting.now w
        → IsLookedAt x (gives_listed methods) (Contains facts) w view.now.setting.now (V.knows view.now.slots.now) view.now.method view.now.node.now view.now.ways.now
        → AreFollowing x (gives_listed methods) (Contains facts) (transfer_of w) view.now.method
        (λ (e : SiteFact). edge view.now.method e (before view.now.node.now) (fact_of fact.now) ∷ []) following.new.within.items following.new.entered.items) }
{
    following.within.clear();
    following.entered.clear();
    add_done(view, fact, &mut following.within, &mut following.entered)?;
    let raised = view.ways.raised.as_slice();
    add_raised(view, raised, fact, &mut following.within)?;
    add_started(view, fact, &mut following.entered)
}

/// Adds what follows where nothing is thrown, and the methods that are called.
fn add_done<V: NodeSlots>(
    view: &NodeView<'_, '_, V>,
    fact: &PlainFact,
    within: &mut Vec<Conclusion>,
    methods: &mut Vec<EnteredWith>,
) -> Result<(), AllocError>
    requires { (c : RuleCall) → view.now.node.now.op ≡ IsCall c → length c.arguments ≤ 2 ^ 32 }
    ensures within { OnOk result ((w : Setting) (l : RuleMethod) → IsSettingBy view.now.setting.now w → V.knows view.now.slots.now w l view.now.node.now
        → AreAdded (Done (transfer_of w) l view.now.method view.now.node.now view.now.ways.now (fact_of fact.now)) within.old.items within.new.items) }
    ensures methods { OnOk result ((w : Setting) (l : RuleMethod) → IsSettingBy view.now.setting.now w → V.knows view.now.slots.now w l view.now.node.now
        → AreAdded (Calls (transfer_of w) l view.now.node.now view.now.ways.now (fact_of fact.now)) methods.old.items methods.new.items) }
{
    match call_of(&view.node.op) {
        Some(call) => add_call(view, call, fact, within, methods),
        None => add_passed(view, fact, within),
    }
}

/// Adds what follows of a call.
fn add_call<V: NodeSlots>(
    view: &NodeView<'_, '_, V>,
    call: &Call,
    fact: &PlainFact,
    within: &mut Vec<Conclusion>,
    methods: &mut Vec<EnteredWith>,
) -> Result<(), AllocError>
    requires { length call.now.arguments ≤ 2 ^ 32 }
    ensures within { view.now.node.now.op ≡ IsCall call.now
        → OnOk result ((w : Setting) (l : RuleMethod) → IsSettingBy view.now.setting.now w → V.knows view.now.slots.now w l view.now.node.now
        → AreAdded (Done (transfer_of w) l view.now.method view.now.node.now view.now.ways.now (fact_of fact.now)) within.old.items within.new.items) }
    ensures methods { view.now.node.now.op ≡ IsCall call.now
        → OnOk result ((w : Setting) (l : RuleMethod) → IsSettingBy view.now.setting.now w → V.knows view.now.slots.now w l view.now.node.now
        → AreAdded (Calls (transfer_of w) l view.now.node.now view.now.ways.now (fact_of fact.now)) methods.old.items methods.new.items) }
{
    let sent = call_facts(view.setting, view.slots, call, fact);
    add_described(view, call, &sent, within)?;
    add_called(view, call, &sent, methods)
}

/// Adds what follows of a node that is no call: the facts after it, at each successor, and at a return where the method returns.
fn add_passed<V: NodeSlots>(
    view: &NodeView<'_, '_, V>,
    fact: &PlainFact,
    within: &mut Vec<Conclusion>,
) -> Result<(), AllocError>
    requires { (c : RuleCall) → view.now.node.now.op ≡ IsCall c → ⊥ }
    ensures { OnOk result ((w : Setting) (l : RuleMethod) → IsSettingBy view.now.setting.now w → V.knows view.now.slots.now w l view.now.node.now
        → AreAdded (Done (transfer_of w) l view.now.method view.now.node.now view.now.ways.now (fact_of fact.now)) within.old.items within.new.items) }
{
    if stays(&view.node.op, fact) {
        return add_unchanged(view, fact, within);
    }
    add_changed(view, fact, within)
}

/// The same, by what the node does to the fact.
fn add_changed<V: NodeSlots>(
    view: &NodeView<'_, '_, V>,
    fact: &PlainFact,
    within: &mut Vec<Conclusion>,
) -> Result<(), AllocError>
    requires { (c : RuleCall) → view.now.node.now.op ≡ IsCall c → ⊥ }
    ensures { OnOk result ((w : Setting) (l : RuleMethod) → IsSettingBy view.now.setting.now w → V.knows view.now.slots.now w l view.now.node.now
        → AreAdded (Done (transfer_of w) l view.now.method view.now.node.now view.now.ways.now (fact_of fact.now)) within.old.items within.new.items) }
{
    let facts = after_node(view.setting, view.slots, view.node, fact);
    add_at_each(view.node.successors.as_slice(), &facts, within)?;
    if is_return(&view.node.op) {
        return add_facts(Spot::Returned, &facts, within);
    }
    Ok(())
}

/// Adds that the methods that a call may enter begin, with each of the facts after its event.
fn add_called<V: NodeSlots>(
    view: &NodeView<'_, '_, V>,
    call: &Call,
    sent: &Facts,
    methods: &mut Vec<EnteredWith>,
) -> Result<(), AllocError>
    requires { length call.now.arguments ≤ 2 ^ 32 }
    ensures { OnOk result ((w : Setting) → IsSettingBy view.now.setting.now w
        → AreAdded (OfOne (BegunFrom (transfer_of w) call.now view.now.ways.now.called.items) (facts_of sent.now)) methods.old.items methods.new.items) }
{
    match sent {
        Facts::None => Ok(()),
        Facts::One(fact) => add_sent(view, call, fact, methods),
        Facts::Two(first, second) => {
            add_sent(view, call, first, methods)?;
            add_sent(view, call, second, methods)
        }
    }
}

/// The same of one of the facts. Where no method begins, it is not worked out with what it would.
fn add_sent<V: NodeSlots>(
    view: &NodeView<'_, '_, V>,
    call: &Call,
    sent: &PlainFact,
    methods: &mut Vec<EnteredWith>,
) -> Result<(), AllocError>
    requires { length call.now.arguments ≤ 2 ^ 32 }
    ensures { OnOk result ((w : Setting) → IsSettingBy view.now.setting.now w
        → AreAdded (BegunFrom (transfer_of w) call.now view.now.ways.now.called.items (fact_of sent.now)) methods.old.items methods.new.items) }
{
    let called = view.ways.called.as_slice();
    if called.is_empty() {
        return Ok(());
    }
    let entry = entered(view.setting, Entering::Call(call), sent);
    add_begun(called, &entry, methods)
}

/// Adds that the initialisers begin that the node may start. Where none does, it is not worked out with what it would.
fn add_started<V: NodeSlots>(
    view: &NodeView<'_, '_, V>,
    fact: &PlainFact,
    methods: &mut Vec<EnteredWith>,
) -> Result<(), AllocError>
    ensures { OnOk result ((w : Setting) → IsSettingBy view.now.setting.now w
        → AreAdded (Starts (transfer_of w) view.now.ways.now (fact_of fact.now)) methods.old.items methods.new.items) }
{
    let started = view.ways.started.as_slice();
    if started.is_empty() {
        return Ok(());
    }
    let entry = entered(view.setting, Entering::Trigger, fact);
    add_begun(started, &entry, methods)
}
