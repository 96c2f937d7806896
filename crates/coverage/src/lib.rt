//! Sets of facts that are closed under the rules of the points-to analysis, and have no refusal, cover every execution of the machine that
//! runs methods as nodes: where a reference stands, the set has the site of its object. The crate has definitions, in specs/, and laws of
//! them; it runs nothing.
//! The theorems on reports and runs rest on what `closed_sets_cover` says; the laws beside it say what such sets have of changes, loads,
//! calls and returns.
//! Begin with specs/Covering.antt.
#![tactic(auto)]

pub mod laws;
