//! Lists of values by number: `Groups`. The points-to solver keeps what is known at each place in it; the ground the sites of each place
//! and the targets of each call.
//! Begin with src/groups.rt.
#![tactic(auto)]

mod groups;

pub use groups::Groups;
