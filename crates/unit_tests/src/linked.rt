//! Linked programs, the failures of a link, and the order of classes.

mod link_failure;
mod order;
mod program;
