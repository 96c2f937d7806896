//! Methods that may run.

use op_model::LoweredMethod;
use slot_names::Names;

/// A method that may run: its nodes, and the variables of its slots.
#[derive(Drop)]
pub struct RunningMethod {
    pub method: LoweredMethod,
    pub names: Names,
}
