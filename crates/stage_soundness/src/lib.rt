//! Path edges and executions: edges that are closed under the rules, of a stage with its laws, describe every object of the site in every state of every
//! execution. So where none of them is in the error state, no object of the site ever is. The crate has definitions, in specs/, and laws of them; it runs
//! nothing.
//! The verdicts of the stages after the first, and what an accepted certificate claims, rest on what `closed_edges_describe` says.
//! Begin with specs/Describing.antt.
#![tactic(auto)]

pub mod laws;
