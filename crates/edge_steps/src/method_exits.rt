//! What follows from exits of methods that a node enters: by a call, or by a start of an initialiser.

ghost use Rattle.std.specs.Prelude.{◌≡◌, ◌≤◌, ◌^◌, length, OnOk};
ghost use Rattle.op_model.specs.declared.lowered.LoweredMethod.{LoweredMethod as RuleMethod};
ghost use Rattle.op_model.specs.declared.op.Call.{Call as RuleCall};
ghost use Rattle.op_model.specs.declared.op.Op.TheVariants.{Call as IsCall};
ghost use Rattle.ground.specs.Added.{AreAdded, OfOne};
ghost use Rattle.stage_facts.specs.Plain.{fact_of};
ghost use Rattle.stage_transfer.specs.Calls.{by_call};
ghost use Rattle.stage_transfer.specs.Settings.{Setting};
ghost use Rattle.stage_transfer.specs.Stages.{transfer_of};
ghost use Rattle.stage_views.specs.Views.{entering_of, facts_of, IsSettingBy};
ghost use Rattle.stage_calls.specs.Units.{HasSlots};
ghost use Rattle.edge_steps.specs.Parts.{After, AfterReturn, AfterThrow, LeavesCall, LeftFrom, LeftOne, LeftWith};

use crate::conclusions::Conclusion;
use crate::exit::Exit;
use crate::node_view::NodeView;
use crate::same::is_same_fact;
use crate::spots::{add_at_each, add_fact};
use crate::thrown::add_raised;
use node_ways::{EnteredMethod, call_of};
use op_model::{Call, Spot};
use stage_calls::{call_facts, entered, left};
use stage_facts::PlainFact;
use stage_flow::after_node;
use stage_views::{Entering, Facts, NodeSlots};
use std::alloc::AllocError;

/// Adds what follows where the node is a call of the method that is left.
pub(crate) fn add_from_call<V: NodeSlots>(
    view: &NodeView<'_, '_, V>,
    fact: &PlainFact,
    exit: Exit<'_>,
    within: &mut Vec<Conclusion>,
) -> Result<(), AllocError>
    requires { (c : RuleCall) → view.now.node.now.op ≡ IsCall c → length c.arguments ≤ 2 ^ 32 }
    ensures { OnOk result ((w : Setting) (l : RuleMethod) → IsSettingBy view.now.setting.now w → V.knows view.now.slots.now w l view.now.node.now
        → AreAdded (LeavesCall (transfer_of w) l view.now.node.now view.now.ways.now (fact_of fact.now) exit.entry.method (fact_of exit.entry.entry.now) exit.entry.spot (fact_of exit.entry.fact.now)) within.old.items within.new.items) }
{
    match call_of(&view.node.op) {
        Some(call) => {
            let sent = call_facts(view.setting, view.slots, call, fact);
            add_from_each(view, call, &sent, exit, within)
        }
        None => Ok(()),
    }
}

/// Adds what follows for each of the facts after the call's event.
fn add_from_each<V: NodeSlots>(
    view: &NodeView<'_, '_, V>,
    call: &Call,
    sent: &Facts,
    exit: Exit<'_>,
    within: &mut Vec<Conclusion>,
) -> Result<(), AllocError>
    requires { length call.now.arguments ≤ 2 ^ 32 }
    ensures { OnOk result ((w : Setting) (l : RuleMethod) → IsSettingBy view.now.setting.now w → V.knows view.now.slots.now w l view.now.node.now
        → AreAdded (OfOne (LeftOne (transfer_of w) l view.now.node.now (by_call call.now) exit.entry.method (fact_of exit.entry.entry.now) exit.entry.spot (fact_of exit.entry.fact.now) view.now.ways.now.called.items) (facts_of sent.now)) within.old.items within.new.items) }
{
    let called = view.ways.called.as_slice();
    match sent {
        Facts::None => Ok(()),
        Facts::One(fact) => {
            add_from_methods(view, Entering::Call(call), called, fact, exit, within)
        }
        Facts::Two(first, second) => {
            add_from_methods(view, Entering::Call(call), called, first, exit, within)?;
            add_from_methods(view, Entering::Call(call), called, second, exit, within)
        }
    }
}

/// Adds what follows where one of the methods that the node may enter is the one that is left.
pub(crate) fn add_from_methods<V: NodeSlots>(
    view: &NodeView<'_, '_, V>,
    by: Entering<'_>,
    methods: &[EnteredMethod],
    sent: &PlainFact,
    exit: Exit<'_>,
    within: &mut Vec<Conclusion>,
) -> Result<(), AllocError>
    requires { HasSlots (entering_of by) }
    ensures { OnOk result ((w : Setting) (l : RuleMethod) → IsSettingBy view.now.setting.now w → V.knows view.now.slots.now w l view.now.node.now
        → AreAdded (LeftOne (transfer_of w) l view.now.node.now (entering_of by.entry) exit.entry.method (fact_of exit.entry.entry.now) exit.entry.spot (fact_of exit.entry.fact.now) methods.now (fact_of sent.now)) within.old.items within.new.items) }
{
    for method in methods {
        add_from_method(view, by, method, sent, exit, within)?;
    }
    Ok(())
}

/// Adds what follows where a method that the node may enter is the one that is left.
fn add_from_method<V: NodeSlots>(
    view: &NodeView<'_, '_, V>,
    by: Entering<'_>,
    method: &EnteredMethod,
    sent: &PlainFact,
    exit: Exit<'_>,
    within: &mut Vec<Conclusion>,
) -> Result<(), AllocError>
    requires { HasSlots (entering_of by) }
    ensures { OnOk result ((w : Setting) (l : RuleMethod) → IsSettingBy view.now.setting.now w → V.knows view.now.slots.now w l view.now.node.now
        → AreAdded (LeftFrom (transfer_of w) l view.now.node.now (entering_of by.entry) exit.entry.method (fact_of exit.entry.entry.now) exit.entry.spot (fact_of exit.entry.fact.now) (fact_of sent.now) method.now) within.old.items within.new.items) }
{
    if method.method.0 != exit.method.0 {
        return Ok(());
    }
    add_from_entry(view, by, method.landings.as_slice(), sent, exit, within)
}

/// Adds what follows if the method was entered with the fact.
fn add_from_entry<V: NodeSlots>(
    view: &NodeView<'_, '_, V>,
    by: Entering<'_>,
    landings: &[Option<u32>],
    sent: &PlainFact,
    exit: Exit<'_>,
    within: &mut Vec<Conclusion>,
) -> Result<(), AllocError>
    requires { HasSlots (entering_of by) }
    ensures { OnOk result ((w : Setting) (l : RuleMethod) → IsSettingBy view.now.setting.now w → V.knows view.now.slots.now w l view.now.node.now
        → AreAdded (LeftWith (transfer_of w) l view.now.node.now (entering_of by.entry) exit.entry.method (fact_of exit.entry.entry.now) exit.entry.spot (fact_of exit.entry.fact.now) landings.now (fact_of sent.now)) within.old.items within.new.items) }
{
    let entry = entered(view.setting, by, sent);
    if !is_same_fact(&entry, exit.entry) {
        return Ok(());
    }
    let after = left(view.setting, view.slots, by, exit.method, sent, exit.fact);
    add_after(view, by, landings, &after, exit.spot, within)
}

/// Adds how the node goes on with what is known then.
fn add_after<V: NodeSlots>(
    view: &NodeView<'_, '_, V>,
    by: Entering<'_>,
    landings: &[Option<u32>],
    after: &PlainFact,
    spot: Spot,
    within: &mut Vec<Conclusion>,
) -> Result<(), AllocError>
    ensures { OnOk result ((w : Setting) (l : RuleMethod) → IsSettingBy view.now.setting.now w → V.knows view.now.slots.now w l view.now.node.now
        → AreAdded (After (transfer_of w) l view.now.node.now (entering_of by.entry) landings.now (fact_of after.now) spot) within.old.items within.new.items) }
{
    match spot {
        Spot::Node(_) => Ok(()),
        Spot::Returned => add_after_return(view, by, after, within),
        Spot::Thrown => add_after_throw(view, by, landings, after, within),
    }
}

/// Adds how the node goes on after a return: a call at each successor, and a node that started an initialiser runs.
fn add_after_return<V: NodeSlots>(
    view: &NodeView<'_, '_, V>,
    by: Entering<'_>,
    after: &PlainFact,
    within: &mut Vec<Conclusion>,
) -> Result<(), AllocError>
    ensures { OnOk result ((w : Setting) (l : RuleMethod) → IsSettingBy view.now.setting.now w → V.knows view.now.slots.now w l view.now.node.now
        → AreAdded (AfterReturn (transfer_of w) l view.now.node.now (entering_of by.entry) (fact_of after.now)) within.old.items within.new.items) }
{
    match by {
        Entering::Call(_) => {
            let facts = after_node(view.setting, view.slots, view.node, after);
            add_at_each(view.node.successors.as_slice(), &facts, within)
        }
        Entering::Trigger => add_fact(Spot::Node(view.node.offset), after, within),
    }
}

/// Adds how the node goes on after a throw: the object lands, or a node that started an initialiser runs.
fn add_after_throw<V: NodeSlots>(
    view: &NodeView<'_, '_, V>,
    by: Entering<'_>,
    landings: &[Option<u32>],
    after: &PlainFact,
    within: &mut Vec<Conclusion>,
) -> Result<(), AllocError>
    ensures { OnOk result ((w : Setting) (l : RuleMethod) → IsSettingBy view.now.setting.now w → V.knows view.now.slots.now w l view.now.node.now
        → AreAdded (AfterThrow (transfer_of w) l view.now.node.now (entering_of by.entry) landings.now (fact_of after.now)) within.old.items within.new.items) }
{
    match by {
        Entering::Call(_) => add_raised(view, landings, after, within),
        Entering::Trigger => {
            add_fact(Spot::Node(view.node.offset), after, within)?;
            add_raised(view, landings, after, within)
        }
    }
}
