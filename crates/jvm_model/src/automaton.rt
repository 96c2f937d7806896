//! The automaton of a property: states, and what each event does to them (Fink et al., section 2).

use crate::name::Name;
use crate::sequence::{Bytes, Sequence};

/// A call that moves the automaton: name and descriptor of a method, and for each state in order the
/// number of the next one.
#[derive(Debug, Drop)]
pub struct Event {
    pub name: Bytes,
    pub descriptor: Bytes,
    pub next: Sequence<u8>,
}

/// The automaton of a class's objects. `initial` and `error` are places in `states`.
#[derive(Debug, Drop)]
pub struct Automaton {
    pub class_name: Bytes,
    pub states: Sequence<Name>,
    pub initial: u8,
    pub error: u8,
    pub events: Sequence<Event>,
}
