//! Stub files: from bytes to the `StubClass`es that they describe; and the base stubs, which are there without any file. The run calls
//! `read_stubs` and `base_stubs`.
//! The law `one_answer` says that bytes have no two answers, memory aside; `base_stubs_are_closed`, that the base stubs keep the rules of a
//! stub file and mention only each other.
//! Begin with src/reader.rt, and with src/rules.rt for the rules of a class. The rows of the base stubs stand in src/base_table, and again
//! in specs/; the contract of `base_stubs` says that they agree.
#![tactic(auto)]

mod base_row;
mod base_table;
mod class_table;
mod laws;
mod member_table;
mod reader;
mod rules;
mod signature;
mod spelled;
mod stub_failure;
mod words;

pub use base_table::base_stubs;
pub use laws::{base_stubs_are_closed, one_answer};
pub use reader::read_stubs;
pub use stub_failure::{StubFailure, StubFault};
