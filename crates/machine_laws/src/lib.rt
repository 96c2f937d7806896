//! Laws of the machine that runs bytecode and of the one that runs nodes: what no step changes (`objects_survive`, `errors_stay`), and that
//! steps are there where they should be (`running_goes_on` and those beside it). They call nothing, and hold of each program.
//! They show that the definitions say what they should; the proofs of `coverage`, `simulation` and `lowering_laws` take lemmas from here.
//! Begin with specs/: it has what an instruction, and what an operation, has to have so that its machine goes on.
#![tactic(auto)]

pub mod initialisers;
pub mod node_progress;
pub mod node_start;
pub mod node_survival;
pub mod progress;
pub mod start;
pub mod survival;
