//! Access paths: what a slot, a static field, or the value that a frame returns or throws leads to by the instance fields that are
//! followed; their order, and sets of the least six of them. A `Path` and a `PathSet` are values of a fixed size, and no call takes memory.
//! The facts of sites, and what nodes and calls do to them, speak of such paths and sets. Begin with specs/Paths.antt for what they mean,
//! and with src/path_set.rt for what is done to them.
#![tactic(auto)]

pub mod cut;
pub mod fields;
mod gain;
pub mod path;
pub mod path_set;
pub mod root;

pub use cut::Cut;
pub use fields::Fields;
pub use path::Path;
pub use path_set::PathSet;
pub use root::Root;
