//! The bytes of a class file from left to right: numbers, tables, attributes, fields and methods, each with its first fault and the offset
//! of that. The readers of class files and of code call `Input` and `table`.
//! What is read at a place stands in specs/Reading.antt. Begin with src/input.rt.
#![tactic(auto)]

mod input;
mod structure;
mod structures;

pub use input::Input;
pub use structure::{Structure, table};
