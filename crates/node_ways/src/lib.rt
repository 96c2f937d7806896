//! Where the ways out of a node lead, by the ground: where exceptions go, which methods the node may enter, and what described methods give
//! and keep (`ways_at`). It is the same for each site, so the stages work it out once for a node. The start of the program has nodes of its
//! own (`start_method`, `ways_of_start`). `call_of` gives the call of an operation, if it is one. Begin with src/ways.rt and specs/Ways.antt.
#![tactic(auto)]

mod described;
mod entered;
mod kinds;
mod landings;
mod node;
mod start;
mod ways;

pub use kinds::call_of;
pub use node::{ways_at, ways_of_start};
pub use start::start_method;
pub use ways::{DescribedTarget, EnteredMethod, GivenResult, NodeWays};
