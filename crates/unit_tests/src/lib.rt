//! Tests of the data of class files and programs, of the outside, and of the readers: each public call once on its happy path, and what no
//! clause says. They stand apart from the crates that they test, since a crate with tests is proved twice. cases_readers has the tables of what
//! is read and refused; stage_tests the tests of facts.
#![tactic(auto)]

#[cfg(test)]
mod documents;
#[cfg(test)]
mod folders;
#[cfg(test)]
mod index;
#[cfg(test)]
mod linked;
#[cfg(test)]
mod made_classes;
#[cfg(test)]
mod model;
#[cfg(test)]
mod one_method;
#[cfg(test)]
mod outside;
#[cfg(test)]
mod readers;
#[cfg(test)]
mod seen;
#[cfg(test)]
mod words;
