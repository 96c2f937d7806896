//! What the ground says of the slots at a node, for the objects of a site: `SlotsAt`, which the transfers of the stages ask.
//! Begin with src/slots_at.rt; specs/Known.antt says when its answers are those of a setting.
#![tactic(auto)]

mod same;
mod slots_at;

pub use slots_at::SlotsAt;
