//! Why an instruction has no node: what it names is not in the program or is of another kind, or is something that the analysis does not
//! follow. Nothing here takes memory.
//! Lowering calls `judge` for each instruction that is reached, and gets the first reason, or the `NamedMember`.
//! Begin with specs/Reasons.antt, the reasons and their order, and with src/judgement.rt; followed.rt, stubs.rt, members.rt, mismatch.rt,
//! targets.rt and finalizers.rt have the tests.
#![tactic(auto)]

mod absent;
mod finalizers;
mod followed;
pub mod judgement;
mod lookups;
mod members;
mod methods;
mod mismatch;
mod names;
mod stubs;
mod targets;
mod texts;

pub use judgement::{JudgedInstruction, NamedMember, judge};
