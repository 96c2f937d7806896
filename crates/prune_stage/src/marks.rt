//! The walk over the calls: each event is marked at the sites of the objects on which it may be called.

ghost use Rattle.std.specs.Prelude.{◌≡◌, ◌↔◌, ◌<◌, ℕ, length, slice_get};
ghost use Rattle.jvm_model.specs.Automata.{IsAutomaton};
ghost use Rattle.op_model.specs.declared.lowered.LoweredMethod.{LoweredMethod};
ghost use Rattle.ground.specs.Findings.{HasNode};
ghost use Rattle.prune_stage.specs.Marks.{AreMarked, MethodMarks, NodeMarks, OfOneBelow};
ghost use Rattle.prune_stage.specs.Places.{AreBelow};

use crate::event_set::EventSet;
use crate::marked_sites::Marking;
use ground::{Ground, NodePlace, call_event, receiver};
use jvm_model::Automaton;
use op_model::Op;

/// Marks the event of each call of methods that may run, at each site of an object on which it may be made.
pub(crate) fn mark_methods<M: Marking>(
    ground: &Ground<'_>,
    automaton: &Automaton,
    marking: &M,
    sets: &mut [EventSet],
)
    requires automaton { IsAutomaton automaton.now }
    requires below { AreBelow (length sets.old) (M.stands marking.now) }
    ensures { AreMarked (OfOneBelow (MethodMarks automaton.now ground.now (M.stands marking.now)) (length ground.now.methods)) sets.old sets.new }
{
    for method in 0..ground.method_count() {
        mark_method(ground, automaton, marking, method, sets);
    }
}

/// Marks the events of the method at a place, if it may run.
fn mark_method<M: Marking>(
    ground: &Ground<'_>,
    automaton: &Automaton,
    marking: &M,
    method: usize,
    sets: &mut [EventSet],
)
    requires automaton { IsAutomaton automaton.now }
    requires below { AreBelow (length sets.old) (M.stands marking.now) }
    requires method { method < length ground.now.methods }
    ensures { AreMarked (MethodMarks automaton.now ground.now (M.stands marking.now) method) sets.old sets.new }
{
    let lowered = ground.method(method);
    if !ground.may_run(lowered.method) {
        return;
    }
    for node in 0..lowered.nodes.len() {
        mark_node(ground, automaton, marking, NodePlace { method, node }, sets);
    }
}

/// Marks the event that the node at a place is, if its operation is a call, at the sites of the objects on which that is made.
fn mark_node<M: Marking>(
    ground: &Ground<'_>,
    automaton: &Automaton,
    marking: &M,
    at: NodePlace,
    sets: &mut [EventSet],
)
    requires automaton { IsAutomaton automaton.now }
    requires below { AreBelow (length sets.old) (M.stands marking.now) }
    requires there { HasNode ground.now at }
    ensures { AreMarked (NodeMarks automaton.now ground.now (M.stands marking.now) at.method at.node) sets.old sets.new }
{
    let Op::Call(call) = &ground.node(at).op else {
        return;
    };
    let Some(event) = call_event(automaton, call) else {
        return;
    };
    let Some(slot) = receiver(call) else {
        return;
    };
    ground.well_formed();
    marking.mark(ground.sites_of_slot(at, slot), event, sets);
}
