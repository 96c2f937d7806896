//! The solver.

ghost use Rattle.std.specs.Prelude.{◌≡◌, Some, None, IfOk, OnOk, IfErr};
ghost use Rattle.program_model.specs.Numbers.{IsMethodNumber};
ghost use Rattle.op_model.specs.Supplies.{IsSameSupply};
ghost use Rattle.points_to.specs.Refusing.{IsNamed, IsOfCoded, IsRefusing};
ghost use Rattle.points_to.specs.Solutions.{IsSolved};
ghost use Rattle.points_to_rules.specs.Solutions.{IsSolveEnd, IsSupplyOf};

use crate::closing::close;
use crate::refusals::Refusals;
use crate::refused::first_refusal;
use crate::solution::Solution;
use crate::working::Closing;
use failure::Failure;
use jvm_model::MethodNo;
use op_model::Supply;
use points_to_rules::{SolveFailure, SolveFault};
use program_model::program::Program;
use std::alloc::Global;

/// The least sets over what the supplier gives, from an entry method, where no method that may run and no call in one is refused, and there are
/// fewer pairs than the limit. The limit is tested first.
pub fn solve<S: Supply>(
    alloc: Global,
    program: &Program,
    supply: &mut S,
    entry: MethodNo,
    pair_limit: u64,
) -> Result<Solution, SolveFailure>
    requires entry { IsMethodNumber program.now entry.0 }
    requires supply { IsSupplyOf program.now (S.gives supply.old) }
    ensures solved { IfOk result (IsSolved program.now (S.gives supply.old) entry pair_limit) }
    ensures end { IfErr result (IsSolveEnd program.now (S.gives supply.old) entry pair_limit) }
    ensures same { IsSameSupply (S.gives supply.old) (S.gives supply.new) }
{
    if pair_limit == 0 {
        return Err(Failure::Cause(SolveFault::PairLimit(0)));
    }
    let Closing { solution, refusals } = close(alloc, program, supply, entry, pair_limit)?;
    refuse(alloc, program, refusals).and(Ok(solution))
}

/// Fails with the first refusal, if there is one.
fn refuse(alloc: Global, program: &Program, refusals: Refusals) -> Result<(), SolveFailure>
    requires { IsOfCoded program.now refusals.call }
    ensures none { OnOk result (IsNamed program.now refusals.call refusals.method None) }
    ensures end { IfErr result (IsRefusing program.now refusals.call refusals.method) }
{
    let first = first_refusal(alloc, program, refusals).map_err(Failure::widen)?;
    match first {
        Some(refusal) => Err(Failure::Cause(SolveFault::Refused(refusal))),
        None => Ok(()),
    }
}
