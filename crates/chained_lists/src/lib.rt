//! Lists of numbers by number, which may be walked while they grow: `Chains`. All lists stand in one vector of links, so a list that is added to takes eight
//! bytes a value, and none is moved. Tabulation keeps in it what leads where.
//! Begin with specs/Entries.antt and src/chains.rt.
#![tactic(auto)]

mod chains;
mod links;
mod place;

pub use chains::Chains;
pub use place::Place;
