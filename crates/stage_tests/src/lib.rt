//! Tests of chained lists, of sets of numbers, of the rows of facts, of access paths, of the ends of edges and their lines, of certificates, and of what
//! nodes and calls do to facts: each public call once on its happy path, and what no clause says. They stand apart from the crates that they test, since a
//! crate with tests is proved twice.
#![tactic(auto)]

#[cfg(test)]
mod certificate_texts;
#[cfg(test)]
mod chains;
#[cfg(test)]
mod edge_texts;
#[cfg(test)]
mod node_facts;
#[cfg(test)]
mod number_sets;
#[cfg(test)]
mod path_ends;
#[cfg(test)]
mod rows;
#[cfg(test)]
mod site_calls;
#[cfg(test)]
mod site_facts;
