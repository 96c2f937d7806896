//! What nodes, ways, events and calls do to the facts of a site, at the stages after the first. The crate has definitions, in specs/; it
//! runs nothing.
//! The rules of path edges take a `Transfer`; `transfer_of` is that of a stage. Begin with specs/Changes.antt: what happens to paths where
//! roots get other values; then Operations.antt, Exceptions.antt, Calls.antt, and Stages.antt, which joins them.
#![tactic(auto)]
