//! Initialisers of classes: how they start and end, and what comes of one that fails.

ghost use Rattle.std.specs.Prelude.{codes, ◌≡◌, [], ◌∷◌};
ghost use Rattle.jvm_model.specs.declared.site.SiteKind.TheVariants.{Thrown};
ghost use Rattle.machine_bytecode.specs.States.{throwing};
ghost use Rattle.machine_bytecode.specs.Start.{start_frame};
ghost use Rattle.example_machine.specs.Initialising.{runs, makes_ready, makes_broken};
ghost use Rattle.example_machine.specs.Taking.{Shows, HasObject};
ghost use Rattle.example_nodes.specs.Taking.{StartingNode, ResumingNode, RaisingNode, UnwindingNode, WrappingNode};
ghost use Rattle.example_nodes.specs.Initialising.{given_ready, ReadySteps, runs_with_errors, given_broken, BrokenSteps};

/// An initialiser starts at new.
pub fn an_initialiser_starts()
    ensures { ReadySteps (StartingNode (runs makes_ready) given_ready 3) }
{}

/// It returns to the frame that triggered it, which stands at the same node.
pub fn an_initialiser_returns()
    ensures { ReadySteps (λ s t. ResumingNode (runs makes_ready) given_ready s t × Shows 0 [] t) }
{}

/// The initialiser of the entry's class starts at the first node of the start.
pub fn an_initialiser_starts_at_the_entry()
    ensures { ReadySteps (λ s t. StartingNode (runs makes_ready) given_ready 2 s t × (s.frames ≡ start_frame ∷ [])) }
{}

/// What leaves an initialiser is kept, and becomes an ExceptionInInitializerError.
pub fn an_exception_is_wrapped()
    ensures { BrokenSteps (λ s t. WrappingNode (runs_with_errors makes_broken) given_broken 2 s t × HasObject 3 Thrown (codes "java/lang/ExceptionInInitializerError") t × (t.world.kept ≡ 2 ∷ [])) }
{}

/// After that the next trigger of the class raises a NoClassDefFoundError, which its node lists.
pub fn a_failed_class_is_denied()
    ensures { BrokenSteps (λ s t. RaisingNode (runs_with_errors makes_broken) given_broken (codes "java/lang/NoClassDefFoundError") s t × Shows 6 [] s × HasObject 4 Thrown (codes "java/lang/NoClassDefFoundError") t) }
{}

/// It may leave the initialiser as it is: whether it is wrapped is open.
pub fn an_exception_leaves_an_initialiser()
    ensures { BrokenSteps (λ s t. UnwindingNode (runs_with_errors makes_broken) given_broken 2 s t × (t.mode ≡ throwing 2) × Shows 0 [] t) }
{}
