//! What of a node is no operation: the handlers that cover it, the classes that it may throw, whether it may start an initialiser; and the
//! units of a method's parameters.
//! Lowering calls `catches_of`, `first_unknown`, `entry_offset`, `node_handlers`, `thrown_classes` and `parameter_units`; the crates above
//! it also call `has_code`.
//! Begin with src/catches.rt and src/exceptions.rt.
#![tactic(auto)]

pub mod catches;
pub mod entries;
pub mod exceptions;
pub mod handlers;
pub mod initialisers;
pub mod parameters;

pub use catches::{Catch, catches_of};
pub use entries::{entry_offset, first_unknown};
pub use exceptions::thrown_classes;
pub use handlers::node_handlers;
pub use initialisers::{has_code, has_initialiser};
pub use parameters::parameter_units;
