//! The law of supplied methods under coverage: it calls nothing, and stands on the definitions alone.

ghost use Rattle.std.specs.Prelude.{Contains, List};
ghost use Rattle.jvm_model.specs.LinkedPrograms.{IsProgram};
ghost use Rattle.least_sets.specs.Rules.{IsClosedSet};
ghost use Rattle.op_model.specs.Supplies.{Given, IsMapOf};
ghost use Rattle.machine_bytecode.specs.Objects.{Subject};
ghost use Rattle.points_to_rules.specs.Facts.{Fact};
ghost use Rattle.points_to_rules.specs.Refusals.{IsUnrefused};
ghost use Rattle.points_to_rules.specs.Writes.{AnyInstance};
ghost use Rattle.lowering_supply.specs.Supplied.{IsSupplied};
ghost use Rattle.coverage.specs.Changes.{ChangesAreWritten};
ghost use Rattle.coverage.specs.Covering.{CoversAll};
ghost use Rattle.coverage.specs.Uses.{InformsAll};

/// A list of facts that is closed under the rules for the methods of a folder, and has no refusal, covers each state of each execution on them, and has
/// what they load, call, return and change.
pub fn supplied_executions_are_covered()
    ensures { (x : Subject) (given : Given) (facts : List Fact) → IsProgram x.program → IsMapOf given (IsSupplied x.program)
        → IsClosedSet (AnyInstance x.program (IsSupplied x.program) (record { 0 = x.entry })) (Contains facts)
        → IsUnrefused x.program (IsSupplied x.program) (Contains facts)
        → CoversAll x given (IsSupplied x.program) (Contains facts) × InformsAll x given (IsSupplied x.program) (Contains facts)
        × ChangesAreWritten x given (Contains facts) }
{}
