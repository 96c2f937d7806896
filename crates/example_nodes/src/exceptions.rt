//! Exceptions: how they are thrown, caught, and leave frames.

ghost use Rattle.std.specs.Prelude.{◌≡◌, [], ◌∷◌};
ghost use Rattle.machine_bytecode.specs.States.{reference_to, ended};
ghost use Rattle.example_machine.specs.Excepting.{runs, catches_here, catches_above, catches_nothing};
ghost use Rattle.example_machine.specs.Taking.{Shows};
ghost use Rattle.example_nodes.specs.Taking.{ThrowingNode, CatchingNode, UnwindingNode};
ghost use Rattle.example_nodes.specs.Excepting.{given_with, Steps, catches_here_nodes, catches_above_nodes, catches_nothing_nodes};

/// athrow throws the object in its slot.
pub fn an_exception_is_thrown()
    ensures { Steps catches_here catches_here_nodes (ThrowingNode (runs catches_here) (given_with catches_here_nodes) 2) }
{}

/// The second handler of the node takes it, since the first one is for errors.
pub fn an_exception_is_caught_in_its_method()
    ensures { Steps catches_here catches_here_nodes (λ s t. CatchingNode (runs catches_here) (given_with catches_here_nodes) 2 4 s t × Shows 4 (reference_to 2 ∷ []) t) }
{}

/// An exception that no frame catches ends the program.
pub fn an_uncaught_exception_ends_the_program()
    ensures { Steps catches_nothing catches_nothing_nodes (λ s t. UnwindingNode (runs catches_nothing) (given_with catches_nothing_nodes) 2 s t × (t.frames ≡ []) × (t.mode ≡ ended)) }
{}

/// An exception is caught two frames above, by a handler of its class; the frame between has one of another class.
pub fn an_exception_is_caught_two_frames_above()
    ensures { Steps catches_above catches_above_nodes (λ s t. CatchingNode (runs catches_above) (given_with catches_above_nodes) 2 4 s t × Shows 4 (reference_to 2 ∷ []) t) }
{}
