//! The variables of slots. Two slots of one variable have one value, so the layers above ask what a variable may refer to, and not each
//! slot at each node.
//! The points-to solver calls `names_of` for each method; it and the ground read `Names`. The laws `one_variable` and `each_variable` say
//! that a slot has one variable at a node, `slots_of_one_variable` that two slots of it have one value in each execution.
//! Begin with specs/Variables.antt, and with src/naming.rt, which enters the nodes one after another.
#![tactic(auto)]

mod arrivals;
mod branch;
mod entry;
pub mod laws;
mod moved;
mod moves;
mod names;
mod naming;
mod places;
mod rows;
mod variable;

pub use laws::{each_variable, one_variable, slots_of_one_variable};
pub use names::{Names, names_of};
pub use places::{place_number, place_of};
pub use variable::Variable;
