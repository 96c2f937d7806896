//! What calls do to the facts of a site: their events (`call_facts`); what a method is entered with (`entered`); and what its caller knows
//! when it has ended (`left`). No call takes memory. Begin with src/event.rt, src/enter.rt and src/leave.rt; src/path_test.rt has how
//! paths are gathered.
#![tactic(auto)]

mod alike;
mod enter;
mod event;
mod joins;
mod leave;
mod left_out;
mod path_test;
mod roots;
mod sets;
mod units;

pub use enter::entered;
pub use event::call_facts;
pub use leave::left;
pub use units::has_slots;
