//! The ground of what a certificate lists: the sets that its lines list, whoever wrote them, and the targets of calls that follow from them.
//! The checker of certificates calls `certificate_ground`, and judges the ground. No solver stands below.
//! Begin with specs/Listed.antt and specs/ListedGround.antt, and with src/building.rt: line_sites.rt numbers the sites, held.rt has the pairs,
//! reached.rt the methods, writes.rt the writes, and targets.rt the targets of calls.
#![tactic(auto)]

mod building;
mod held;
mod line_sites;
mod reached;
mod targets;
mod writes;

pub use building::certificate_ground;
