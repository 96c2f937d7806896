//! What described methods give.

ghost use Rattle.std.specs.Prelude.{codes, [], ◌∷◌};
ghost use Rattle.jvm_model.specs.declared.site.SiteKind.TheVariants.{Result};
ghost use Rattle.machine_bytecode.specs.States.{primitive_value, null_value, reference_to};
ghost use Rattle.example_machine.specs.Calling.{runs, counts, gets_none, gets_same, gets_fresh};
ghost use Rattle.example_machine.specs.Taking.{Shows, HasObject};
ghost use Rattle.example_nodes.specs.Taking.{GettingOnNode};
ghost use Rattle.example_nodes.specs.Calling.{given_with, Steps, counts_nodes, gets_none_nodes, gets_same_nodes, gets_fresh_nodes};

/// A primitive is given.
pub fn a_primitive_is_given()
    ensures { Steps counts counts_nodes (λ s t. GettingOnNode (runs counts) (given_with counts_nodes) 8 s t × Shows 3 (primitive_value ∷ []) t) }
{}

/// Null is given.
pub fn null_is_given()
    ensures { Steps gets_none gets_none_nodes (λ s t. GettingOnNode (runs gets_none) (given_with gets_none_nodes) 10 s t × Shows 3 (null_value ∷ []) t) }
{}

/// An argument is given back.
pub fn an_argument_is_given_back()
    ensures { Steps gets_same gets_same_nodes (λ s t. GettingOnNode (runs gets_same) (given_with gets_same_nodes) 11 s t × Shows 6 (reference_to 2 ∷ []) t) }
{}

/// A new object is given.
pub fn a_new_object_is_given()
    ensures { Steps gets_fresh gets_fresh_nodes (λ s t. GettingOnNode (runs gets_fresh) (given_with gets_fresh_nodes) 12 s t × Shows 3 (reference_to 3 ∷ []) t × HasObject 3 Result (codes "Gate") t) }
{}
