//! The answers of the first stage, by the events that are marked.

ghost use Rattle.std.specs.Prelude.{◌≡◌, ◌↔◌, ◌≤◌, ℕ, length, take, IsTrue, IfOk};
ghost use Rattle.std.specs.List.{AllZip};
ghost use Rattle.jvm_model.specs.Automata.{IsAutomaton};
ghost use Rattle.prune_stage.specs.StageOne.{IsSafe, picked};
ghost use Rattle.prune_stage.specs.Marks.{IsMarked};

use crate::event_set::EventSet;
use crate::stage_one::is_safe;
use jvm_model::Automaton;
use std::alloc::{AllocError, Global};

/// So many sets without an event.
pub(crate) fn no_events(alloc: Global, count: usize) -> Result<Vec<EventSet>, AllocError>
    ensures count { IfOk result (λ sets. length sets.items ≡ count) }
    ensures none { IfOk result (λ sets. (place event : ℕ) → IsMarked sets.items place event → ⊥) }
{
    let mut sets = Vec::new(alloc);
    while sets.len() < count {
        sets.push(EventSet::none())?;
    }
    Ok(sets)
}

/// Of each set whether no word over its events leads from the initial to the error state.
pub(crate) fn answers_of(
    alloc: Global,
    automaton: &Automaton,
    sets: &[EventSet],
) -> Result<Vec<bool>, AllocError>
    requires { IsAutomaton automaton.now }
    ensures { IfOk result (λ answers. AllZip (λ set answer. IsTrue answer
        ↔ IsSafe automaton.now (picked (take (length automaton.now.events) set.occurs) automaton.now.events)) sets.now answers.items) }
{
    let count = automaton.events.len();
    let mut answers = Vec::new(alloc);
    for set in sets {
        answers.push(is_safe(automaton, set.first(count)))?;
    }
    Ok(answers)
}
