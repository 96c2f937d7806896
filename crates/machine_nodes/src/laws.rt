//! Laws of executions on nodes: they call nothing, and hold of each program.

ghost use Rattle.std.specs.Prelude.{[], ◌∷◌, ◌++◌, List};
ghost use Rattle.machine_bytecode.specs.Objects.{Subject};
ghost use Rattle.machine_bytecode.specs.Start.{IsFirst};
ghost use Rattle.machine_bytecode.specs.States.{State};
ghost use Rattle.op_model.specs.Supplies.{Given};
ghost use Rattle.machine_nodes.specs.NodeSteps.{NodeStep};
ghost use Rattle.machine_nodes.specs.NodeExecutions.{IsNodeExecution};

/// A first state alone is an execution.
pub fn first_states_are_executions()
    ensures { (x : Subject) (given : Given) (s : State) → IsFirst x s → IsNodeExecution x given (s ∷ []) }
{}

/// An execution goes on by each step from its last state.
pub fn executions_go_on()
    ensures { (x : Subject) (given : Given) (states : List State) (s t : State)
        → IsNodeExecution x given (states ++ s ∷ []) → NodeStep x given s t → IsNodeExecution x given (states ++ s ∷ t ∷ []) }
{}
