//! The sites that a property is about: where methods that may run make objects of its class or of one below it, in the order of a report.
//! The report calls `tracked`.
//! Begin with src/tracking.rt and src/nodes.rt: sites.rt has the tracked site of a class, targets.rt has the new objects that described
//! targets give.
#![tactic(auto)]

mod nodes;
mod order;
mod sites;
mod targets;
mod tracking;

pub use tracking::tracked;
