//! The search of the first stage: from the initial state, state after state, by the events that occur.

ghost use Rattle.std.specs.Prelude.{◌≡◌, ◌<◌, ◌≤◌, ◌↔◌, ℕ, All, IsTrue, IfSome, IfNone, length};
ghost use Rattle.jvm_model.specs.Automata.{IsAutomaton};
ghost use Rattle.prune_stage.specs.StageOne.{IsSafe, picked};
ghost use Rattle.prune_stage.specs.Reaching.{AddsState, AddsNothing, IsWithin, FindsState, FindsNothing};

use jvm_model::{Automaton, Event};

/// The most states of an automaton.
const STATES: usize = 32;

/// Whether no word over the events that occur leads from the initial to the error state. `occurs` has one answer for
/// each event of the automaton, in their order.
pub fn is_safe(automaton: &Automaton, occurs: &[bool]) -> bool
    requires sound { IsAutomaton automaton.now }
    requires answers { length occurs.now ≡ length automaton.now.events }
    ensures { IsTrue result ↔ IsSafe automaton.now (picked occurs.now automaton.now.events) }
{
    let mut reached = [false; STATES];
    reached[usize::from(automaton.initial)] = true;
    while let Some(state) = new_state(automaton.events.as_slice(), occurs, &reached) {
        reached[usize::from(state)] = true;
    }
    !reached[usize::from(automaton.error)]
}

/// A state to which an event that occurs leads from one that is reached, and that is not reached yet.
fn new_state(events: &[Event], occurs: &[bool], reached: &[bool]) -> Option<u8>
    requires within { All (IsWithin (length reached.now)) events.now }
    requires answers { length occurs.now ≡ length events.now }
    ensures found { IfSome result (FindsState occurs.now events.now reached.now) }
    ensures none { IfNone result (FindsNothing occurs.now events.now reached.now) }
{
    for (place, event) in events.iter().enumerate() {
        if occurs[place] {
            if let Some(state) = new_state_by(event, reached) {
                return Some(state);
            }
        }
    }
    None
}

/// The same for one event.
fn new_state_by(event: &Event, reached: &[bool]) -> Option<u8>
    requires { IsWithin (length reached.now) event.now }
    ensures found { IfSome result (AddsState reached.now event.now) }
    ensures none { IfNone result (AddsNothing reached.now event.now) }
{
    for (from, state) in event.next.as_slice().iter().enumerate() {
        if reached[from] && !reached[usize::from(*state)] {
            return Some(*state);
        }
    }
    None
}
