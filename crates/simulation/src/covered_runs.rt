//! The law that joins the simulation and coverage: it calls nothing, and stands on the definitions alone.

ghost use Rattle.std.specs.Prelude.{Contains, List, All};
ghost use Rattle.least_sets.specs.Rules.{IsClosedSet};
ghost use Rattle.op_model.specs.Supplies.{Given, IsMapOf};
ghost use Rattle.machine_bytecode.specs.Executions.{IsExecution};
ghost use Rattle.machine_bytecode.specs.Objects.{Subject};
ghost use Rattle.machine_bytecode.specs.States.{State};
ghost use Rattle.machine_nodes.specs.NodeExecutions.{IsNodeExecution};
ghost use Rattle.points_to_rules.specs.Facts.{Fact};
ghost use Rattle.points_to_rules.specs.Refusals.{IsUnrefused};
ghost use Rattle.points_to_rules.specs.Rules.{Instance};
ghost use Rattle.lowering_supply.specs.Supplied.{IsSupplied};
ghost use Rattle.simulation.specs.Simulation.{AreLowered, IsRun};
ghost use Rattle.coverage.specs.Covering.{Covers};
ghost use Rattle.points_to_rules.specs.WholeMethods.{AreWholeMethods};

/// An execution of bytecode, in a program in whose closed set of facts nothing is refused, enters no method without nodes: so it is an
/// execution of the nodes, and the set covers each of its states.
pub fn executions_are_covered()
    ensures { (x : Subject) (given : Given) (facts : List Fact) → IsRun x given → IsMapOf given (IsSupplied x.program) → AreWholeMethods x.program (IsSupplied x.program)
        → IsClosedSet (Instance x.program (IsSupplied x.program) (record { 0 = x.entry })) (Contains facts) → IsUnrefused x.program (IsSupplied x.program) (Contains facts)
        → (states : List State) → IsExecution x states
        → All (AreLowered given) states × IsNodeExecution x given states
        × ((s : State) → Contains states s → Covers x (IsSupplied x.program) (Contains facts) s) }
{}
