//! Calls, and what they give.

ghost use Rattle.std.specs.Prelude.{codes, ◌≡◌, [], ◌∷◌};
ghost use Rattle.jvm_model.specs.declared.site.SiteKind.TheVariants.{Thrown};
ghost use Rattle.machine_bytecode.specs.States.{reference_to, ended};
ghost use Rattle.example_machine.specs.Calling.{runs, shuts, hashes, rings, keeps, fails};
ghost use Rattle.example_machine.specs.Taking.{Shows, HasObject};
ghost use Rattle.example_nodes.specs.Taking.{EnteringEntryNode, ThrownAtNode, EnteringNode, GettingOnNode, CatchingNode, ReturningNode, EndingNode};
ghost use Rattle.example_nodes.specs.Calling.{given_with, Steps, shuts_nodes, hashes_nodes, rings_nodes, keeps_nodes, fails_nodes};

/// The start calls the entry.
pub fn the_entry_is_called()
    ensures { Steps rings rings_nodes (λ s t. EnteringEntryNode (runs rings) (given_with rings_nodes) s t × Shows 0 [] t) }
{}

/// The entry returns to the start.
pub fn the_entry_returns()
    ensures { Steps rings rings_nodes (λ s t. ReturningNode (runs rings) (given_with rings_nodes) s t × Shows 1 [] t) }
{}

/// The start returns, and the machine has ended.
pub fn a_program_ends()
    ensures { Steps rings rings_nodes (λ s t. EndingNode (runs rings) (given_with rings_nodes) s t × (t.mode ≡ ended)) }
{}

/// A call of an interface's method goes to its default, where the object's class has none of its own.
pub fn a_default_is_selected()
    ensures { Steps shuts shuts_nodes (EnteringNode (runs shuts) (given_with shuts_nodes) 1) }
{}

/// A call on an array goes to the method of java/lang/Object.
pub fn an_array_is_called()
    ensures { Steps hashes hashes_nodes (GettingOnNode (runs hashes) (given_with hashes_nodes) 6) }
{}

/// A described method gives an object that another one kept.
pub fn a_kept_object_is_given()
    ensures { Steps keeps keeps_nodes (λ s t. GettingOnNode (runs keeps) (given_with keeps_nodes) 14 s t × Shows 9 (reference_to 2 ∷ []) t) }
{}

/// A described method throws a new object of a class that is listed.
pub fn a_described_method_throws()
    ensures { Steps fails fails_nodes (λ s t. ThrownAtNode (runs fails) (given_with fails_nodes) 15 s t × HasObject 3 Thrown (codes "java/lang/Exception") t) }
{}

/// What a described method throws is caught at its call.
pub fn its_exception_is_caught()
    ensures { Steps fails fails_nodes (λ s t. CatchingNode (runs fails) (given_with fails_nodes) 3 4 s t × Shows 4 (reference_to 3 ∷ []) t) }
{}
