//! The analysis of a linked program, from an entry.

ghost use Rattle.std.specs.Prelude.{IfErr, IfOk};
ghost use Rattle.program_model.specs.Numbers.{IsMethodNumber};
ghost use Rattle.lowering_supply.specs.Supplied.{IsSupplied};
ghost use Rattle.points_to.specs.Solutions.{IsSolved};
ghost use Rattle.points_to_rules.specs.Solutions.{IsSolveEnd};
ghost use Rattle.report_analysis.specs.Analyses.{IsAnalysis};

use call_graph::ground_of;
use ground::Ground;
use jvm_model::MethodNo;
use lowering_supply::{FolderSupply, laws};
use points_to::{Solution, solve};
use points_to_rules::SolveFailure;
use program_model::program::Program;
use simulation::supplied_methods_are_whole;
use std::alloc::Global;

/// The least sets of the methods of class files, from an entry method; or why there are none: there are as many pairs of a place and a site as the
/// limit; or a method that may run, or a call in one, is refused.
pub fn solve_folder(
    alloc: Global,
    program: &Program,
    entry: MethodNo,
    pair_limit: u64,
) -> Result<Solution, SolveFailure>
    requires entry { IsMethodNumber program.now entry.0 }
    ensures solved { IfOk result (IsSolved program.now (IsSupplied program.now) entry pair_limit) }
    ensures end { IfErr result (IsSolveEnd program.now (IsSupplied program.now) entry pair_limit) }
{
    program.well_formed();
    laws::each_answer();
    supplied_methods_are_whole();
    let mut supply = FolderSupply::new(alloc, program);
    solve(alloc, program, &mut supply, entry, pair_limit)
}

/// The ground of these sets, which has also what methods may write.
pub fn analyse(
    alloc: Global,
    program: &Program,
    entry: MethodNo,
    pair_limit: u64,
) -> Result<Ground<'_>, SolveFailure>
    requires entry { IsMethodNumber program.now entry.0 }
    ensures ground { IfOk result (IsAnalysis program.now (IsSupplied program.now) entry pair_limit) }
    ensures end { IfErr result (IsSolveEnd program.now (IsSupplied program.now) entry pair_limit) }
{
    supplied_methods_are_whole();
    let solution = solve_folder(alloc, program, entry, pair_limit)?;
    let ground = ground_of(alloc, program, solution)?;
    Ok(ground)
}
