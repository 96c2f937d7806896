//! Laws of executions: they call nothing, and hold of each program.

ghost use Rattle.std.specs.Prelude.{[], ◌∷◌, ◌++◌, List};
ghost use Rattle.machine_bytecode.specs.Executions.{IsExecution};
ghost use Rattle.machine_bytecode.specs.Machine.{Step};
ghost use Rattle.machine_bytecode.specs.Objects.{Subject};
ghost use Rattle.machine_bytecode.specs.Start.{IsFirst};
ghost use Rattle.machine_bytecode.specs.States.{State};

/// A first state alone is an execution.
pub fn first_states_are_executions()
    ensures { (x : Subject) (s : State) → IsFirst x s → IsExecution x (s ∷ []) }
{}

/// An execution goes on by each step from its last state.
pub fn executions_go_on()
    ensures { (x : Subject) (states : List State) (s t : State) → IsExecution x (states ++ s ∷ []) → Step x s t → IsExecution x (states ++ s ∷ t ∷ []) }
{}
