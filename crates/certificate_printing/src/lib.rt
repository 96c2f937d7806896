//! The certificate of an analysis, as lines. The run calls `certificate_of` in place of the report. Each kind of line is collected by a module of its own,
//! without regard to order; then all are put into the order of lines, each once, between the head and the end.
//! Begin with src/certificate.rt; the definitions are those of certificate_spec.
#![tactic(auto)]

mod body;
mod certificate;
mod claims;
mod copies;
mod edges;
mod head;
mod held;
mod listed;
mod order;

pub use certificate::{Certified, certificate_of};
