//! Property files: from bytes to the `Automaton` of a property, or to the first key of which a rule is broken. The run calls
//! `read_property`.
//! The laws `property_is_sound`, `one_automaton`, `one_refusal` and `automaton_or_refusal` say that what is read is the automaton of a
//! property, and that bytes have no two answers, memory aside.
//! Begin with specs/Rules.antt, and with src/reading.rt, which has the keys in their order; the other modules have the values that stand at
//! them.
#![tactic(auto)]

mod event_list;
mod laws;
mod property_failure;
mod reading;
mod state_list;

pub use laws::{automaton_or_refusal, one_automaton, one_refusal, property_is_sound};
pub use property_failure::{PropertyFailure, PropertyFault};
pub use reading::read_property;
