//! The calls that are events.

ghost use Rattle.std.specs.Prelude.{◌≡◌, slice_get};
ghost use Rattle.std.specs.Option.{option_flatten};
ghost use Rattle.machine_nodes.specs.NodeSteps.{is_selecting_kind};
ghost use Rattle.ground.specs.CallEvents.{call_event, event_number, is_event_of};

use jvm_model::{Automaton, Event};
use op_model::{Call, CallKind};

/// The number of the event that a call is, if it selects by its object.
pub fn call_event(automaton: &Automaton, call: &Call) -> Option<usize>
    ensures { result ≡ call_event automaton.now call.now }
{
    if !is_selecting(call.kind) {
        return None;
    }
    event_number(
        automaton.events.as_slice(),
        call.name.as_slice(),
        call.descriptor.as_slice(),
    )
}

/// The slot of the object on which a call is made: of its first argument, if that is a reference.
pub fn receiver(call: &Call) -> Option<u32>
    ensures { result ≡ option_flatten (slice_get call.now.arguments 0) }
{
    call.arguments.as_slice().first().copied().flatten()
}

/// Whether a call selects its target by the object that it is made on.
fn is_selecting(kind: CallKind) -> bool
    ensures { result ≡ is_selecting_kind kind }
{
    match kind {
        CallKind::Virtual => true,
        CallKind::Special => false,
        CallKind::Static => false,
        CallKind::Interface => true,
    }
}

/// The number of the first event of calls of a name and a descriptor.
fn event_number(events: &[Event], name: &[u8], descriptor: &[u8]) -> Option<usize>
    ensures { result ≡ event_number events.now (record { name = name.now; descriptor = descriptor.now }) }
{
    events
        .iter()
        .position(|event| is_event_of(event, name, descriptor))
}

/// Whether an event is that of calls of a name and a descriptor.
fn is_event_of(event: &Event, name: &[u8], descriptor: &[u8]) -> bool
    ensures { result ≡ is_event_of (record { name = name.now; descriptor = descriptor.now }) event.now }
{
    if event.name.as_slice() != name {
        return false;
    }
    event.descriptor.as_slice() == descriptor
}
