//! What follows from path edges by one instance of a rule, at any stage. `from_node` takes one edge, to a node. `from_exit` takes such an edge and a second
//! one, to an exit of a method that the node enters. The entry of the first edge plays no part in what follows. Both clear and fill what they are handed, so
//! that its memory serves again for the next edge.
//! The crates above take in what follows until nothing is new. Begin with specs/Steps.antt, src/node_edges.rt and src/exit_edges.rt.
#![tactic(auto)]

mod conclusions;
mod described;
mod exit;
mod exit_edges;
mod given;
mod kinds;
mod method_exits;
mod node_edges;
mod node_view;
mod same;
mod spots;
mod thrown;
mod unchanged;

pub use conclusions::{Conclusion, EnteredWith, Following};
pub use exit::Exit;
pub use exit_edges::from_exit;
pub use node_edges::from_node;
pub use node_view::NodeView;
pub use same::{copied_fact, is_same_fact};
