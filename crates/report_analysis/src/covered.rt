//! The law of the answer of an analysis: it calls nothing, and stands on the definitions alone.

ghost use Rattle.std.specs.Prelude.{ℕ, Contains};
ghost use Rattle.machine_bytecode.specs.Objects.{Subject};
ghost use Rattle.coverage.specs.Changes.{ChangesAreWritten};
ghost use Rattle.coverage.specs.Covering.{CoversAll};
ghost use Rattle.coverage.specs.Uses.{InformsAll};
ghost use Rattle.report_analysis.specs.Analyses.{IsAnalysis};
ghost use Rattle.lowering_supply.specs.Supplied.{IsSupplied};
ghost use Rattle.ground.specs.Findings.{Findings};
ghost use Rattle.jvm_model.specs.LinkedPrograms.{IsProgram};
ghost use Rattle.op_model.specs.Supplies.{Given, IsMapOf};

/// The facts of an analysis cover each state of each execution on the methods of the folder as nodes, and have what these load, call, return and change.
pub fn analyses_are_covered()
    ensures { (x : Subject) (given : Given) (limit : ℕ) (g : Findings) → IsProgram x.program → IsMapOf given (IsSupplied x.program)
        → IsAnalysis x.program (IsSupplied x.program) (record { 0 = x.entry }) limit g
        → CoversAll x given (IsSupplied x.program) (Contains g.facts)
        × InformsAll x given (IsSupplied x.program) (Contains g.facts) × ChangesAreWritten x given (Contains g.facts) }
{}
