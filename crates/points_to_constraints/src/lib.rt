//! The rules of the points-to analysis by items: facts, and constraints of holders, which say what is done with each object of a holder.
//! The solver takes in what follows from each item, and no instance joins more than a constraint and an object of its holder. The crate has
//! definitions, in specs/, and laws of them; it runs nothing.
//! The laws `derivable_by_items` and `least_by_items` say that what is least by items is least by the rules.
//! Begin with specs/Items.antt; then NodeItems.antt, CallItems.antt and ItemRules.antt.
#![tactic(auto)]

pub mod laws;
