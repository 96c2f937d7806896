//! The path edges of a site by tabulation (Reps, Horwitz and Sagiv, POPL 1995; Fink et al., section 4.2): `tabulate`. Edges are their own work list. What
//! follows from an end is worked out once, and then holds with each entry of its method. From which edges each one follows is kept.
//! The stages take from it whether an object may be in the error state. Begin with src/work_list.rt and specs/Kept.antt.
#![tactic(auto)]

mod beginning;
mod found_edges;
mod leading;
mod meeting;
mod processing;
mod taking;
mod work;
mod work_list;

pub use found_edges::Tabulation;
pub use work_list::tabulate;
