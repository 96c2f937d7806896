//! The points-to solver: the least sets of what each place may refer to, of what may run and of what may be called, over the methods that a
//! supplier gives; or that there are as many pairs as the limit; or the first refusal.
//! The report's analysis calls `solve`, and hands the `Solution` on to call_graph.
//! Begin with src/solver.rt, and with src/closing.rt, the loop over the work list of queue.rt; conclude.rt has what follows from what one turn does.
#![tactic(auto)]

mod closing;
mod conclude;
mod found;
mod initialisers;
mod passed;
mod queue;
mod refusals;
mod refused;
mod solution;
mod solver;
mod start;
mod working;

pub use queue::Queue;
pub use solution::Solution;
pub use solver::solve;
