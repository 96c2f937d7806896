//! The laws of the simulation: they call nothing, and stand on the definitions alone.

ghost use Rattle.std.specs.Prelude.{◌≤◌, List, [], ◌∷◌, ◌++◌, length, All};
ghost use Rattle.op_model.specs.Supplies.{Given, IsMapOf};
ghost use Rattle.machine_bytecode.specs.Executions.{IsExecution};
ghost use Rattle.machine_bytecode.specs.Objects.{Subject};
ghost use Rattle.machine_bytecode.specs.States.{State};
ghost use Rattle.machine_nodes.specs.NodeExecutions.{IsNodeExecution};
ghost use Rattle.machine_nodes.specs.NodeSteps.{NodeStep};
ghost use Rattle.jvm_model.specs.LinkedPrograms.{IsProgram};
ghost use Rattle.lowering_supply.specs.Supplied.{IsSupplied};
ghost use Rattle.simulation.specs.Simulation.{AreLowered, HasEntry, HasExceptions, IsRun};

/// Each execution of the machine that runs bytecode, in whose states each frame is of a method that has nodes, is an execution of the
/// machine that runs nodes, state by state.
pub fn each_execution()
    ensures { (x : Subject) (given : Given) → IsRun x given → (states : List State) → IsExecution x states → All (AreLowered given) states
        → IsNodeExecution x given states }
{}

/// So is the beginning of an execution up to where a method without nodes is entered: whatever states come later, those at the front are
/// an execution of the nodes, as long as each frame in them is of a method that has nodes.
pub fn each_beginning()
    ensures { (x : Subject) (given : Given) → IsRun x given → (states later : List State) → 1 ≤ length states → IsExecution x (states ++ later)
        → All (AreLowered given) states → IsNodeExecution x given states }
{}

/// In such an execution each step is a step of a node, between the same states.
pub fn each_step()
    ensures { (x : Subject) (given : Given) → IsRun x given → (states : List State) (s t : State) → IsExecution x (states ++ s ∷ t ∷ [])
        → All (AreLowered given) (states ++ s ∷ t ∷ []) → NodeStep x given s t }
{}

/// What the methods of the folder are given as is what a run asks for: so the laws hold of each linked program that has the classes of
/// exceptions and the entry, with the map of its methods.
pub fn supplied_runs()
    ensures { (x : Subject) (given : Given) → IsProgram x.program → HasExceptions x.program → HasEntry x → IsMapOf given (IsSupplied x.program)
        → IsRun x given }
{}
