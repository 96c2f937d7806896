//! The operation of an instruction: moves of slots, an allocation, an access, a call and so on, by the instruction table and what the
//! constant pool says of the units.
//! Lowering calls `operation` with a `Placement`, for instructions of which nothing is wrong.
//! Begin with src/operation.rt; moves.rt has instructions that only pop and write, and table.rt, access.rt, arrays.rt, calls.rt and
//! constants.rt the others.
#![tactic(auto)]

mod access;
mod arrays;
mod calls;
mod constants;
mod moves;
pub mod operation;
pub mod placement;
mod sites;
mod table;
mod units;

pub use placement::Placement;
