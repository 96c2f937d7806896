//! What a stage owes to the truth of its facts: how each result of its transfer is related to the fact that it comes from. The relations speak of
//! tuples, paths and roots, and of no heap or execution. The crate has definitions, in specs/; it runs nothing.
//! `stage_soundness` shows that closed path edges of a stage with these laws describe every execution; `stage_transfer_laws` that the transfers
//! of the definitions have them. Begin with specs/Roots.antt, then Relations.antt and Laws.antt.
#![tactic(auto)]
