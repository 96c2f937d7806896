//! The outside: where files come from and where output goes, as the traits `Tree` and `Sink`. Their contracts say which bytes are given and
//! taken, which calls were made, and when a fault was counted.
//! The layers above read only through `Tree` and write only through `Sink`. `RealTree` and `RealSink` are a folder and standard output;
//! what the operating system tells them is trusted. `MemoryTree`, `MemorySink`, `SteadyTree` and `SteadySink` are for tests.
//! Begin with src/tree.rt and src/sink.rt.
#![tactic(auto)]

mod counts;
pub mod held;
pub mod memory_sink;
pub mod memory_tree;
pub mod real_sink;
pub mod real_tree;
pub mod sink;
pub mod steady_sink;
pub mod steady_tree;
pub mod tree;
pub mod trouble;
mod walk;

pub use held::names_differ;
pub use memory_sink::MemorySink;
pub use memory_tree::MemoryTree;
pub use real_sink::RealSink;
pub use real_tree::RealTree;
pub use sink::{Sink, SinkFailure};
pub use steady_sink::SteadySink;
pub use steady_tree::SteadyTree;
pub use tree::{Tree, TreeFailure, TreeFault};
pub use trouble::Trouble;
