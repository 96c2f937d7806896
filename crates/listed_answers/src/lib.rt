//! The answers about a program that stages ask for (stage_transfer/specs/Settings.antt), computed from a list of facts. So each question for path edges is
//! asked of some subject and in some setting: `path_edges` always says something. The crate has laws and definitions; it runs nothing.
//! Examples of path edges take their answers from here. Begin with specs/ListedAnswers.antt and src/laws.rt.
#![tactic(auto)]

pub mod laws;
