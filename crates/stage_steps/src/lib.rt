//! What facts say after a step: where the result of a stage is related to a fact as its laws ask, what the fact said of an object before the step the
//! result says after it. There is a lemma for each kind of step, over the states of the machine that runs nodes. The crate has definitions, in specs/, and
//! lemmas, in proofs/; it runs nothing.
//! `stage_soundness` puts the lemmas together. Begin with specs/Said.antt.
#![tactic(auto)]
