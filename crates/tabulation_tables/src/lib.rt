//! What tabulation has found, by number (`Tables`): ends, and path edges. Of each end: to which other ends it leads within its method. Of each end with
//! which a method begins: which ends enter the method so, and at which exits its edges end.
//! `tabulation` takes in here what follows by the rules. The laws on how the tables may grow are in proofs/. Begin with specs/Lists.antt and src/tables.rt.
#![tactic(auto)]

mod tables;
mod visits;

pub use tables::Tables;
