//! What programs share that find path edges. A `Question` says of which site they are asked, at which stage and below which limit. A `PathEdge` is an edge
//! as a value. `EdgesFailure` says why not all edges are found. `GroundViews` has for each node the ways out of it: asked for a node, it gives a
//! `ViewedNode`. `after_node` and `after_exit` write what follows from an edge to that node into what they are handed.
//! Begin with src/question.rt, specs/Questions.antt and specs/Views.antt.
#![tactic(auto)]

mod fault;
mod method_ways;
mod node_slots;
mod path_edge;
mod question;
mod start_slots;
mod steps;
mod viewed_node;
mod views;

pub use fault::{EdgesFailure, EdgesFault};
pub use node_slots::AnySlots;
pub use path_edge::{PathEdge, is_among, is_same};
pub use question::Question;
pub use start_slots::StartSlots;
pub use steps::{after_exit, after_node};
pub use viewed_node::ViewedNode;
pub use views::GroundViews;
