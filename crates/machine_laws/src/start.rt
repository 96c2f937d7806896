//! That there are first states.

ghost use Rattle.std.specs.Prelude.{◌≡◌, Some, List, All, slice_get};
ghost use Rattle.jvm_model.specs.Programs.{Method};
ghost use Rattle.machine_bytecode.specs.Objects.{Subject};
ghost use Rattle.machine_bytecode.specs.Start.{IsFirst, MayBeArgument};
ghost use Rattle.machine_bytecode.specs.States.{State, Value};

/// Each program with the entry has a first state, and where the entry takes an array of strings one for each such array.
pub fn first_states_are_there()
    ensures { (x : Subject) (entry : Method) → slice_get x.program.methods x.entry ≡ Some entry → (arguments : List Value) → All MayBeArgument arguments
        → (s : State) × IsFirst x s }
{}
