//! The items of the points-to solver to which calls and constraints lead: what a call passes to a target and gets from it, and what each
//! constraint makes of an object of its place. What is asked of classes again and again is kept, in `Answers`.
//! The solver calls `target_items` for a call that goes to a target, and `pass` for a constraint and an object.
//! Begin with src/targets.rt and src/passing.rt; catch_chains.rt has where exceptions go. What a call selects stands in call_selection.
#![tactic(auto)]

mod answer_keys;
mod catch_chains;
mod described;
mod giving;
mod kept;
mod origin;
mod passing;
mod plain;
mod reading;
mod receiver;
mod selecting;
mod targets;

pub use answer_keys::{FitKey, SelectKey};
pub use kept::Answers;
pub use passing::pass;
pub use targets::target_items;
