//! The flow graph of a method (JVMS 2.6.2, 4.9.2, 4.10): for each instruction that is reached, the height of its operand stack, where it
//! goes on, and the handlers that cover it; or the first fault. Lowering calls `graph`; what a graph is stands in specs/, as `IsGraph` and
//! `IsFlow`.
//! The law `one_graph` says that a code has no two answers, memory aside.
//! Begin with src/build.rt, which joins the others: uncaught.rt lists handlers by the offsets that they cover, effect.rt has what is popped
//! and pushed, walk.rt reaches the instructions, steps.rt makes the first fault or the steps of the marks.
#![tactic(auto)]

mod build;
mod effect;
mod flow;
mod handlers;
pub mod laws;
mod mark;
mod pool_units;
mod steps;
mod uncaught;
mod units;
mod walk;

pub use build::graph;
pub use effect::Effect;
pub use flow::number_of;
pub use mark::Mark;
pub use steps::{Graph, GraphStep};
