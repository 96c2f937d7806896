//! An automaton that was read, as text.

use crate::texts::words::tell_bytes;
use jvm_model::{Automaton, Event};
use std::alloc::{AllocError, Global};

/// The class and the states of an automaton, its initial state and its error state by number, and a line for each event.
pub fn told_property(alloc: Global, automaton: &Automaton) -> Result<String, AllocError> {
    let mut text = String::from_str(alloc, "class ")?;
    tell_bytes(&mut text, automaton.class_name.as_slice())?;
    text.push_str(", states")?;
    for state in automaton.states.as_slice() {
        write!(text, " {}", state.as_str())?;
    }
    write!(text, ", initial {}", automaton.initial)?;
    write!(text, ", error {}", automaton.error)?;
    for event in automaton.events.as_slice() {
        tell_event(&mut text, event)?;
    }
    Ok(text)
}

/// Adds the line of an event: its name and its descriptor, and the numbers of the next states.
fn tell_event(text: &mut String, event: &Event) -> Result<(), AllocError> {
    text.push_str("\n  ")?;
    tell_bytes(text, event.name.as_slice())?;
    tell_bytes(text, event.descriptor.as_slice())?;
    text.push_str(" to")?;
    for state in event.next.as_slice() {
        write!(text, " {state}")?;
    }
    Ok(())
}
