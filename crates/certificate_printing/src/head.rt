//! The lines before the sets: the version, the automaton, the entry and the depth.

ghost use Rattle.std.specs.Prelude.{◌≡◌, ◌++◌, ◌∷◌, [], map, IfOk, OnOk};
ghost use Rattle.certificate_lines.specs.declared.line.Line.TheVariants.{Class, Depth, Entry, Error, Event as EventLine, Initial, State as StateLine, Version};
ghost use Rattle.certificate_printing.specs.Collected.{head_by};

use crate::copies::{bytes_copied, event_copied};
use certificate_lines::Line;
use jvm_model::{Automaton, Event, MethodNo, Name};
use std::alloc::{AllocError, Global};

/// The head of a certificate.
pub(crate) fn head_of(
    alloc: Global,
    automaton: &Automaton,
    entry: MethodNo,
    depth: u8,
) -> Result<Vec<Line>, AllocError>
    ensures { IfOk result (λ lines. lines.items ≡ head_by automaton.now entry depth) }
{
    let mut lines = Vec::new(alloc);
    push_class(alloc, automaton, &mut lines)?;
    push_states(alloc, automaton.states.as_slice(), &mut lines)?;
    push_marked(automaton, &mut lines)?;
    push_events(alloc, automaton.events.as_slice(), &mut lines)?;
    push_question(entry, depth, &mut lines)?;
    Ok(lines)
}

/// Adds the version and the class.
fn push_class(alloc: Global, automaton: &Automaton, lines: &mut Vec<Line>) -> Result<(), AllocError>
    ensures { OnOk result (lines.new.items ≡ lines.old.items ++ (Version ∷ Class automaton.now.class_name ∷ [])) }
{
    lines.push(Line::Version)?;
    let name = bytes_copied(alloc, automaton.class_name.as_slice())?;
    lines.push(Line::Class(name))?;
    Ok(())
}

/// Adds the initial and the error state.
fn push_marked(automaton: &Automaton, lines: &mut Vec<Line>) -> Result<(), AllocError>
    ensures { OnOk result (lines.new.items ≡ lines.old.items ++ (Initial automaton.now.initial ∷ Error automaton.now.error ∷ [])) }
{
    lines.push(Line::Initial(automaton.initial))?;
    lines.push(Line::Error(automaton.error))?;
    Ok(())
}

/// Adds the entry and the depth.
fn push_question(entry: MethodNo, depth: u8, lines: &mut Vec<Line>) -> Result<(), AllocError>
    ensures { OnOk result (lines.new.items ≡ lines.old.items ++ (Entry entry ∷ Depth depth ∷ [])) }
{
    lines.push(Line::Entry(entry))?;
    lines.push(Line::Depth(depth))?;
    Ok(())
}

/// Adds the lines of states, in their order.
fn push_states(alloc: Global, states: &[Name], lines: &mut Vec<Line>) -> Result<(), AllocError>
    ensures { OnOk result (lines.new.items ≡ lines.old.items ++ map StateLine states.now) }
{
    for state in states {
        lines.push(Line::State(bytes_copied(alloc, state.as_str().as_bytes())?))?;
    }
    Ok(())
}

/// Adds the lines of events, in their order.
fn push_events(alloc: Global, events: &[Event], lines: &mut Vec<Line>) -> Result<(), AllocError>
    ensures { OnOk result (lines.new.items ≡ lines.old.items ++ map EventLine events.now) }
{
    for event in events {
        lines.push(Line::Event(event_copied(alloc, event)?))?;
    }
    Ok(())
}
