//! The transfer of the definitions meets the laws of a stage: what it gives of a fact is related to the fact as `stage_relations` demands. It calls
//! nothing, and stands on the definitions alone.
//! Begin with src/laws.rt; proofs/Lawful.antt joins the lemmas, one for each law.
#![tactic(auto)]

pub mod laws;
