//! Path edges: which facts of a site hold at which spot of a method that is entered with which fact, as a least set by rules. The crate
//! has definitions, in specs/; it runs nothing.
//! Verdicts of the stages after the first, certificates and traces speak of `Instance` and `ArePathEdges`. Begin with specs/Rules.antt.
#![tactic(auto)]
