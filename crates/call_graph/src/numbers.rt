//! The numbers of the methods that may run.

ghost use Rattle.std.specs.Prelude.{◌≡◌, map, IfOk};
ghost use Rattle.ground.specs.Lists.{HaveDifferentNumbers, number_of};

use indexmap::IndexSet;
use jvm_model::MethodNo;
use points_to_rules::RunningMethod;
use std::alloc::{AllocError, Global};

/// The numbers of methods, in the order in which the methods stand.
pub(crate) fn numbers_of(
    alloc: Global,
    methods: &[RunningMethod],
) -> Result<IndexSet<MethodNo>, AllocError>
    requires { HaveDifferentNumbers methods.now }
    ensures { IfOk result (λ numbers. numbers.keys ≡ map number_of methods.now) }
{
    let mut numbers = IndexSet::new(alloc);
    for method in methods {
        numbers.insert(method.method.method)?;
    }
    Ok(numbers)
}
