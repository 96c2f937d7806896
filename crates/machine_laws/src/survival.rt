//! What becomes of an object in a step.

ghost use Rattle.std.specs.Prelude.{◌≡◌, ℕ, Some, slice_get};
ghost use Rattle.jvm_model.specs.Automata.{IsAutomaton};
ghost use Rattle.machine_bytecode.specs.Machine.{Step};
ghost use Rattle.machine_bytecode.specs.Objects.{Subject};
ghost use Rattle.machine_bytecode.specs.States.{Object, State};
ghost use Rattle.machine_laws.specs.Survival.{Survives};

/// An object stays at its place, with its site and its class; its automaton changes only by an event of it.
pub fn objects_survive()
    ensures { (x : Subject) (s t : State) → Step x s t → (place : ℕ) (o : Object) → slice_get s.world.heap place ≡ Some o → Survives x s t place o }
{}

/// The error state stays.
pub fn errors_stay()
    ensures { (x : Subject) → IsAutomaton x.property → (s t : State) → Step x s t → (place : ℕ) (o : Object) → slice_get s.world.heap place ≡ Some o
        → o.automaton ≡ x.property.error → (later : Object) × (slice_get t.world.heap place ≡ Some later) × (later.automaton ≡ x.property.error) }
{}
