//! Exceptions: how they are thrown, caught, and end a program.

ghost use Rattle.std.specs.Prelude.{codes, ◌≡◌, [], ◌∷◌};
ghost use Rattle.jvm_model.specs.declared.site.SiteKind.TheVariants.{Boot, Thrown};
ghost use Rattle.machine_bytecode.specs.States.{reference_to, throwing, ended};
ghost use Rattle.example_machine.specs.Excepting.{runs, catches_here, catches_above, catches_nothing, calls_null};
ghost use Rattle.example_machine.specs.Taking.{Takes, Shows, RunsIn, HasObject, Raising, ThrowingObject, Catching, Unwinding};

/// An exception is thrown.
pub fn an_exception_is_thrown()
    ensures { Takes (runs catches_here) (λ s t. ThrowingObject (runs catches_here) 2 s t × HasObject 2 Boot (codes "java/lang/Exception") t × (t.mode ≡ throwing 2)) }
{}

/// It is caught in the same method, by the first handler that takes its class: the one before that takes errors.
pub fn an_exception_is_caught_in_its_method()
    ensures { Takes (runs catches_here) (λ s t. Catching (runs catches_here) 2 (codes "java/lang/Exception") s t × Shows 4 (reference_to 2 ∷ []) t) }
{}

/// A handler of another class does not catch it, and the frame goes: the caller throws at its call.
pub fn a_frame_is_left()
    ensures { Takes (runs catches_above) (λ s t. Unwinding (runs catches_above) 2 s t × RunsIn (runs catches_above) (codes "Main") (codes "middle") s
        × RunsIn (runs catches_above) (codes "Main") (codes "main") t × (t.mode ≡ throwing 2)) }
{}

/// It is caught two frames above the one that threw it.
pub fn an_exception_is_caught_two_frames_above()
    ensures { Takes (runs catches_above) (λ s t. Catching (runs catches_above) 2 (codes "java/lang/Exception") s t × RunsIn (runs catches_above) (codes "Main") (codes "main") t × Shows 4 (reference_to 2 ∷ []) t) }
{}

/// An exception that is caught nowhere ends the program.
pub fn an_uncaught_exception_ends_the_program()
    ensures { Takes (runs catches_nothing) (λ s t. Unwinding (runs catches_nothing) 2 s t × (t.frames ≡ []) × (t.mode ≡ ended)) }
{}

/// A call on null raises an exception.
pub fn a_call_on_null_raises()
    ensures { Takes (runs calls_null) (λ s t. Raising (runs calls_null) (codes "invokevirtual") (codes "java/lang/NullPointerException") s t
        × HasObject 3 Thrown (codes "java/lang/NullPointerException") t × (t.mode ≡ throwing 3)) }
{}
