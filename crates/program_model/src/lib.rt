//! The linked program: its classes, methods and fields by number, and what stands for a method when it is called. Linking calls
//! `Program::assemble`; the layers above read a `Program`, and call `well_formed` for what holds of each one.
//! specs/Numbers.antt has what a number stands for. Begin with src/program.rt: numbering.rt gives classes their numbers, by names in byte
//! order, and member_table.rt methods and fields.
#![tactic(auto)]

pub mod link_failure;
pub mod member_kind;
pub mod member_table;
pub mod member_view;
pub mod method_body;
pub mod numbering;
pub mod origin;
pub mod program;
pub mod sorted;

pub use link_failure::{LinkFailure, LinkFault};
