//! What the solver answers.

use crate::queue::Queue;
use points_to_numbers::Tables;
use points_to_rules::RunningMethod;

/// The least sets, by numbers, and the methods that may run and have code.
#[derive(Drop)]
pub struct Solution {
    pub tables: Tables,
    pub items: Queue,
    pub methods: Vec<RunningMethod>,
}
