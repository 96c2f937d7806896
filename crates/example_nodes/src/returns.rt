//! Returns to a caller; and an execution with calls and returns that leads to the error.

ghost use Rattle.std.specs.Prelude.{[], ◌∷◌};
ghost use Rattle.machine_bytecode.specs.States.{primitive_value, reference_to};
ghost use Rattle.example_machine.specs.Calling.{runs as runs_calls, closes, closes_by_interface, calls_same};
ghost use Rattle.example_machine.specs.Taking.{Shows, InState};
ghost use Rattle.example_nodes.specs.Calling.{given_with, Steps, closes_nodes, closes_by_interface_nodes, calls_same_nodes};
ghost use Rattle.example_nodes.specs.Giving.{runs, given};
ghost use Rattle.example_nodes.specs.Taking.{TakesNode, EnteringNode, ReturningNode};

/// A method gives a reference back, and its caller goes on with it.
pub fn a_reference_is_given_back()
    ensures { TakesNode runs given (λ s t. ReturningNode runs given s t × Shows 3 (reference_to 2 ∷ []) t) }
{}

/// A gate is closed, by a method that overrides another and calls it; and when it is closed again, it is in the error state.
pub fn an_event_leads_to_the_error()
    ensures { Steps closes closes_nodes (λ s t. EnteringNode (runs_calls closes) (given_with closes_nodes) 3 s t × InState 2 1 s × InState 2 (runs_calls closes).property.error t) }
{}

/// A static method gives a number back.
pub fn a_number_is_given_back()
    ensures { Steps calls_same calls_same_nodes (λ s t. ReturningNode (runs_calls calls_same) (given_with calls_same_nodes) s t × Shows 4 (primitive_value ∷ []) t) }
{}

/// A call of an interface's method goes to that of the object's class, and is an event.
pub fn an_interface_method_is_called()
    ensures { Steps closes_by_interface closes_by_interface_nodes (λ s t. EnteringNode (runs_calls closes_by_interface) (given_with closes_by_interface_nodes) 3 s t × InState 2 1 t) }
{}
