//! What a call selects by the class of the object that it is made on (JVMS 6.5.invokevirtual, 6.5.invokeinterface): a target, a reason why there
//! is none, or nothing, where the call does not select by its object or may not be made on it. It takes no memory.
//! The points-to solver asks `selected_from`, and keeps the answers; what makes a ground of listed sets asks `selected_for`.
//! Begin with `SelectsFor` in points_to_rules/specs/Calls.antt, and with src/selection.rt.
#![tactic(auto)]

mod selection;

pub use selection::{selected_for, selected_from};
