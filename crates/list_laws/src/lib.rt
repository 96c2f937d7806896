//! Lemmas on lists of any elements: what a list contains, what stands at which place, what a test takes, and two lists side by side. They
//! mention nothing of this repository. The crate has no definitions for contracts, and it runs nothing.
//! The proofs of the crates above take a lemma on lists from here where std has none. Begin with proofs/Members.antt.
#![tactic(auto)]
