//! Laws of the transfer of facts: what it gives of normal facts is normal, and a set that is limited keeps its least paths. They call
//! nothing, and stand on the definitions alone.
//! Begin with specs/Normal.antt.
#![tactic(auto)]

pub mod laws;
