//! Small named programs, and laws that the machine takes a step of each kind in them: an execution from a first state leads to it. They
//! call nothing, and show that the definitions let happen what should. `programs_are_linked` says that linking makes the programs.
//! The examples on nodes and of runs stand on the same programs and builders.
//! Begin with specs/Building.antt and Within.antt, and with src/within.rt.
#![tactic(auto)]

pub mod calls;
pub mod exceptions;
pub mod initialisation;
pub mod linked;
pub mod within;
