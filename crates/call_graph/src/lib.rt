//! The ground of a solution of the points-to analysis: its sets, and what each method may write by itself or by what it calls and starts.
//! The report's analysis calls `ground_of`.
//! Begin with src/building.rt: sets.rt and sites.rt turn the solver's numbers into lists, stores.rt finds what methods write by themselves,
//! edges.rt and writes.rt carry it to their callers.
#![tactic(auto)]

mod building;
mod edges;
mod numbers;
mod rows;
mod sets;
mod sites;
mod stores;
mod writes;

pub use building::ground_of;
