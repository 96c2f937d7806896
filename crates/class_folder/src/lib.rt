//! The class files of a tree, in byte order of the names of their files, within the limits of number and size. The run calls
//! `read_classes`, which answers a `NamedClass` for each, or a `FolderFault`.
//! Begin with specs/ClassFiles.antt and src/read.rt.
#![tactic(auto)]

mod fault;
mod read;

pub use fault::{FolderFailure, FolderFault};
pub use read::read_classes;
