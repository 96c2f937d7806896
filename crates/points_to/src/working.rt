//! What the loop of the solver works on, and what it answers.

ghost use Rattle.std.specs.Prelude.{◌≡◌};
ghost use Rattle.points_to.specs.Working.{IsFresh};

use crate::found::Found;
use crate::queue::Queue;
use crate::refusals::Refusals;
use crate::solution::Solution;
use grouped_lists::Groups;
use points_to_numbers::{ConstraintNo, Work};
use points_to_rules::RunningMethod;
use std::alloc::Global;

/// The least items by numbers with the methods that may run and have code, and the first refusals.
#[derive(Drop)]
pub(crate) struct Closing {
    pub(crate) solution: Solution,
    pub(crate) refusals: Refusals,
}

/// What the loop works on: the items, what was found besides, the constraints of each place, and the methods. It is one value, so that a failure
/// has one value to drop.
#[derive(Drop)]
pub(crate) struct Working {
    pub(crate) queue: Queue,
    pub(crate) found: Found,
    pub(crate) constraints: Groups<ConstraintNo>,
    pub(crate) methods: Vec<RunningMethod>,
}

impl Working {
    /// Nothing. It takes no memory.
    pub(crate) fn new(alloc: Global) -> Self
        ensures { IsFresh result }
    {
        Working {
            queue: Queue::new(alloc),
            found: Found::new(alloc),
            constraints: Groups::new(alloc),
            methods: Vec::new(alloc),
        }
    }

    /// What the solver answers of it: the items with the numbers and the methods, and the refusals. The rest is dropped.
    pub(crate) fn into_closing(self) -> Closing
        ensures tables { result.solution.tables ≡ self.found.work.tables }
        ensures items { result.solution.items ≡ self.queue }
        ensures methods { result.solution.methods ≡ self.methods }
        ensures refusals { result.refusals ≡ self.found.refusals }
    {
        let Found {
            work,
            answers: _answers,
            refusals,
        } = self.found;
        let Work {
            alloc: _alloc,
            tables,
            steps: _steps,
        } = work;
        Closing {
            solution: Solution {
                tables,
                items: self.queue,
                methods: self.methods,
            },
            refusals,
        }
    }
}
