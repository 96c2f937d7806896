//! The methods of class files as nodes, on demand: the code of a method is read, its flow graph is made, and it is lowered; the first of
//! these that is refused is the answer.
//! The report's analysis makes a `FolderSupply`, which the points-to solver asks for methods by number. The laws `one_answer`,
//! `each_answer` and `is_map` say that each method that has code is given as one thing.
//! Begin with specs/Supplied.antt, src/supply.rt and src/coded.rt.
#![tactic(auto)]

mod coded;
pub mod laws;
mod offsets;
mod supply;

pub use supply::FolderSupply;
