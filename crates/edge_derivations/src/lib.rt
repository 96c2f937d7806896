//! The derivation of one path edge: `derivation_of` cuts it out of what tabulation found. It has the edge, those from which it follows, those from which
//! these follow, and so on, and no others, by their places and in their order.
//! What tells why a site is not safe prints it. Begin with specs/Derived.antt and src/derivation.rt.
#![tactic(auto)]

mod derivation;
mod marks;

pub use derivation::derivation_of;
