//! The event of a call.

ghost use Rattle.std.specs.Prelude.{◌≡◌, ℕ, slice_get, slice_index, option_map, map, find};
ghost use Rattle.std.specs.Option.{option_flatten};
ghost use Rattle.jvm_model.specs.declared.automaton.Event.{Event as RuleEvent};
ghost use Rattle.machine_nodes.specs.NodeSteps.{is_selecting_kind};
ghost use Rattle.op_model.specs.declared.lowered.LoweredMethod.{LoweredMethod as RuleMethod};
ghost use Rattle.op_model.specs.declared.node.Node.{Node as RuleNode};
ghost use Rattle.points_to_rules.specs.Facts.{variable};
ghost use Rattle.stage_facts.specs.Facts.{of_object};
ghost use Rattle.stage_facts.specs.Plain.{fact_of};
ghost use Rattle.stage_transfer.specs.Calls.{event_of_call, is_of_others, not_referring, referring};
ghost use Rattle.stage_transfer.specs.Settings.{alike, Setting};
ghost use Rattle.stage_transfer.specs.Stages.{finished, transfer_of};
ghost use Rattle.stage_views.specs.Views.{facts_of, IsSettingBy};
ghost use Rattle.stage_calls.specs.Events.{after_state, in_state, is_event_of, is_only, next_state, states_after};

use crate::sets::joined;
use access_paths::{Path, Root};
use jvm_model::{Automaton, Event};
use op_model::{Call, CallKind};
use stage_facts::{PlainFact, PlainTuple};
use stage_views::{Draft, Facts, Gathering, NodeSlots, StageSetting};

/// The facts before a call that is made on an event's receiver, once the event has happened.
pub fn call_facts<V: NodeSlots>(
    setting: &StageSetting<'_>,
    slots: &V,
    call: &Call,
    fact: &PlainFact,
) -> Facts
    ensures { (w : Setting) (l : RuleMethod) (n : RuleNode) → IsSettingBy setting.now w → V.knows slots.now w l n
        → facts_of result ≡ (transfer_of w).event l n call.now (fact_of fact.now) }
{
    match fact {
        PlainFact::NoneYet => Facts::One(PlainFact::NoneYet),
        PlainFact::SomeYet => Facts::One(PlainFact::SomeYet),
        PlainFact::OfObject(tuple) => tuple_facts(setting, slots, call, tuple),
    }
}

/// The same of an object.
fn tuple_facts<V: NodeSlots>(
    setting: &StageSetting<'_>,
    slots: &V,
    call: &Call,
    tuple: &PlainTuple,
) -> Facts
    ensures { (w : Setting) (l : RuleMethod) (n : RuleNode) → IsSettingBy setting.now w → V.knows slots.now w l n
        → facts_of result ≡ map (finished w) (map of_object (states_after w l n call.now tuple.now)) }
{
    let Some(next) = next_state(setting.automaton, call, tuple.state) else {
        return Facts::One(in_state(setting, tuple, tuple.state));
    };
    let Some(slot) = receiver(call) else {
        return Facts::One(in_state(setting, tuple, tuple.state));
    };
    after_event(setting, slots, next, slot, tuple)
}

/// The slot of the object on which a call is made: of its first argument, if that is a reference.
fn receiver(call: &Call) -> Option<u32>
    ensures { result ≡ option_flatten (slice_get call.now.arguments 0) }
{
    call.arguments.as_slice().first().copied().flatten()
}

/// The state after the event of a call, if it is one of the property's.
fn next_state(automaton: &Automaton, call: &Call, state: u8) -> Option<u8>
    ensures { result ≡ next_state state (event_of_call automaton.now call.now) }
{
    if !is_selecting(call.kind) {
        return None;
    }
    state_after(automaton.events.as_slice(), call, state)
}

/// Whether a call selects its target by the object that it is made on.
fn is_selecting(kind: CallKind) -> bool
    ensures { result ≡ is_selecting_kind kind }
{
    match kind {
        CallKind::Virtual => true,
        CallKind::Special => false,
        CallKind::Static => false,
        CallKind::Interface => true,
    }
}

/// The state after the first event of calls of this name and descriptor.
fn state_after(events: &[Event], call: &Call, state: u8) -> Option<u8>
    ensures { result ≡ next_state state (find (is_event_of call.now) events.now) }
{
    let event = events.iter().find(|event| is_event_of(event, call))?;
    Some(next_of(event, state))
}

/// Whether an event is that of calls of this name and descriptor.
fn is_event_of(event: &Event, call: &Call) -> bool
    ensures { result ≡ is_event_of call.now event.now }
{
    if event.name.as_slice() != call.name.as_slice() {
        return false;
    }
    event.descriptor.as_slice() == call.descriptor.as_slice()
}

/// The number of the next state; 0 past the last one.
fn next_of(event: &Event, state: u8) -> u8
    ensures { result ≡ slice_index event.now.next state }
{
    match event.next.as_slice().get(state as usize) {
        Some(next) => *next,
        None => 0,
    }
}

/// The facts after an event, whose receiver is known to be the object; or known to be another one; or can only be the object; or may be
/// either.
fn after_event<V: NodeSlots>(
    setting: &StageSetting<'_>,
    slots: &V,
    next: u8,
    slot: u32,
    tuple: &PlainTuple,
) -> Facts
    ensures { (w : Setting) (l : RuleMethod) (n : RuleNode) → IsSettingBy setting.now w → V.knows slots.now w l n
        → facts_of result ≡ map (finished w) (map of_object (after_state w next (variable (w.answers.variable_at l n slot)) slot (alike w l n slot) tuple.now)) }
{
    if tuple.must.contains(&Path::new(Root::Slot(slot))) {
        return Facts::One(in_state(setting, tuple, next));
    }
    if is_of_others(slots, slot, tuple) {
        return Facts::One(in_state(setting, tuple, tuple.state));
    }
    if is_only(slots, slot, tuple) {
        return Facts::One(referring(setting, slots, slot, tuple, next));
    }
    if setting.stage == 4 {
        return Facts::Two(
            referring(setting, slots, slot, tuple, next),
            not_referring(setting, slots, slot, tuple),
        );
    }
    Facts::Two(
        in_state(setting, tuple, tuple.state),
        in_state(setting, tuple, next),
    )
}

/// Whether a slot refers to no object of the site, or not to this one.
fn is_of_others<V: NodeSlots>(slots: &V, slot: u32, tuple: &PlainTuple) -> bool
    ensures { (w : Setting) (l : RuleMethod) (n : RuleNode) → V.knows slots.now w l n
        → result ≡ is_of_others w (variable (w.answers.variable_at l n slot)) slot tuple.now }
{
    if !slots.may_refer(slot) {
        return true;
    }
    if tuple.must_not.contains(&Path::new(Root::Slot(slot))) {
        return true;
    }
    !tuple.may
}

/// Whether a slot can only refer to the object.
fn is_only<V: NodeSlots>(slots: &V, slot: u32, tuple: &PlainTuple) -> bool
    ensures { (w : Setting) (l : RuleMethod) (n : RuleNode) → V.knows slots.now w l n
        → result ≡ is_only w (variable (w.answers.variable_at l n slot)) tuple.now }
{
    tuple.unique && slots.refers_to_no_other(slot)
}

/// The object, in another state.
fn in_state(setting: &StageSetting<'_>, tuple: &PlainTuple, state: u8) -> PlainFact
    ensures { (w : Setting) → IsSettingBy setting.now w → fact_of result ≡ finished w (of_object (in_state state tuple.now)) }
{
    let draft = Draft {
        unique: tuple.unique,
        state,
        must: Gathering::whole(&tuple.must),
        may: tuple.may,
        must_not: Gathering::whole(&tuple.must_not).set,
    };
    draft.finish(setting)
}

/// The object, in another state, to which the slots refer that have a slot's variable.
fn referring<V: NodeSlots>(
    setting: &StageSetting<'_>,
    slots: &V,
    slot: u32,
    tuple: &PlainTuple,
    state: u8,
) -> PlainFact
    ensures { (w : Setting) (l : RuleMethod) (n : RuleNode) → IsSettingBy setting.now w → V.knows slots.now w l n
        → fact_of result ≡ finished w (of_object (referring (alike w l n slot) (in_state state tuple.now))) }
{
    let draft = Draft {
        unique: tuple.unique,
        state,
        must: joined(setting.has_paths(), slots, slot, &tuple.must),
        may: tuple.may,
        must_not: Gathering::whole(&tuple.must_not).set,
    };
    draft.finish(setting)
}

/// The object, to which the slots do not refer that have a slot's variable.
fn not_referring<V: NodeSlots>(
    setting: &StageSetting<'_>,
    slots: &V,
    slot: u32,
    tuple: &PlainTuple,
) -> PlainFact
    ensures { (w : Setting) (l : RuleMethod) (n : RuleNode) → IsSettingBy setting.now w → V.knows slots.now w l n
        → fact_of result ≡ finished w (of_object (not_referring (alike w l n slot) tuple.now)) }
{
    let draft = Draft {
        unique: tuple.unique,
        state: tuple.state,
        must: Gathering::whole(&tuple.must),
        may: tuple.may,
        must_not: joined(setting.has_others(), slots, slot, &tuple.must_not).set,
    };
    draft.finish(setting)
}
