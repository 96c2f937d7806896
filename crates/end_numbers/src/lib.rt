//! The ends of path edges, each once, by number: `EndNumbers`. An end is a spot of a method, or of the start of the program, and a fact that
//! holds there. Two ends are equal where their numbers are. They are rows of a pool, and so are their facts, which takes little memory.
//! Tabulation keeps path edges by the numbers of their ends (`number`, `end`).
//! Begin with specs/Ends.antt, which says what callers see, and then read src/numbers.rt.
#![tactic(auto)]

mod key;
mod numbers;
mod path_end;

pub use numbers::EndNumbers;
pub use path_end::PathEnd;
