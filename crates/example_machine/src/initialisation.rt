//! Initialisation of classes: when an initialiser starts, and what becomes of one that fails.

ghost use Rattle.std.specs.Prelude.{codes, ◌≡◌, [], ◌∷◌};
ghost use Rattle.jvm_model.specs.declared.site.SiteKind.TheVariants.{New, Thrown};
ghost use Rattle.machine_bytecode.specs.States.{throwing};
ghost use Rattle.machine_bytecode.specs.Start.{start_frame};
ghost use Rattle.example_machine.specs.Initialising.{runs, initialiser_name, makes_ready, makes_late, makes_table, calls_ready, reads_ready, writes_ready, reads_late, makes_broken};
ghost use Rattle.example_machine.specs.Taking.{Takes, Shows, RunsIn, HasObject, Advancing, Unwinding, Starting, Resuming, Wrapping, Denying};

/// An initialiser starts at `new`. The initialisers of the program are those of the methods 0, 2, 3 and 5: of Broken, Main, Ready
/// and Steady.
pub fn an_initialiser_starts()
    ensures { Takes (runs makes_ready) (λ s t. Starting (runs makes_ready) (codes "Ready") s t × RunsIn (runs makes_ready) (codes "Ready") initialiser_name t × (t.world.started ≡ 3 ∷ [])) }
{}

/// It returns, and the method that triggered it runs on at `new`.
pub fn an_initialiser_returns()
    ensures { Takes (runs makes_ready) (λ s t. Resuming (runs makes_ready) (codes "return") s t × RunsIn (runs makes_ready) (codes "Main") (codes "main") t × Shows 0 [] t) }
{}

/// Then the object is made.
pub fn the_object_is_made_then()
    ensures { Takes (runs makes_ready) (λ s t. Advancing (runs makes_ready) (codes "new") s t × HasObject 3 New (codes "Ready") t × (t.world.started ≡ 3 ∷ [])) }
{}

/// At `new` of a subclass the initialiser of the superclass starts.
pub fn an_initialiser_of_a_superclass_starts()
    ensures { Takes (runs makes_late) (λ s t. Starting (runs makes_late) (codes "Late") s t × RunsIn (runs makes_late) (codes "Ready") initialiser_name t) }
{}

/// That of a superinterface may start there too.
pub fn an_initialiser_of_a_superinterface_starts()
    ensures { Takes (runs makes_table) (λ s t. Starting (runs makes_table) (codes "Table") s t × RunsIn (runs makes_table) (codes "Steady") initialiser_name t) }
{}

/// An initialiser starts at a call of a static method.
pub fn an_initialiser_starts_at_a_call()
    ensures { Takes (runs calls_ready) (λ s t. Starting (runs calls_ready) (codes "Ready") s t × RunsIn (runs calls_ready) (codes "Ready") initialiser_name t) }
{}

/// It starts where a static field is read.
pub fn an_initialiser_starts_at_a_field()
    ensures { Takes (runs reads_ready) (λ s t. Starting (runs reads_ready) (codes "Ready") s t × RunsIn (runs reads_ready) (codes "Ready") initialiser_name t) }
{}

/// It starts where a static field is written.
pub fn an_initialiser_starts_at_a_write()
    ensures { Takes (runs writes_ready) (λ s t. Starting (runs writes_ready) (codes "Ready") s t × RunsIn (runs writes_ready) (codes "Ready") initialiser_name t) }
{}

/// Where a class inherits the field, it is the initialiser of the class that declares it.
pub fn an_initialiser_starts_at_an_inherited_field()
    ensures { Takes (runs reads_late) (λ s t. Starting (runs reads_late) (codes "Ready") s t × RunsIn (runs reads_late) (codes "Ready") initialiser_name t) }
{}

/// It starts at the call of the entry, before the entry.
pub fn an_initialiser_starts_at_the_entry()
    ensures { Takes (runs makes_ready) (λ s t. Starting (runs makes_ready) (codes "Main") s t × (s.frames ≡ start_frame ∷ []) × RunsIn (runs makes_ready) (codes "Main") initialiser_name t) }
{}

/// It returns to the start, which calls the entry then.
pub fn an_initialiser_returns_to_the_start()
    ensures { Takes (runs makes_ready) (λ s t. Resuming (runs makes_ready) (codes "return") s t × (t.frames ≡ start_frame ∷ []) × (t.world.started ≡ 2 ∷ [])) }
{}

/// An exception leaves an initialiser: it is kept, and an ExceptionInInitializerError is thrown where the initialiser was triggered.
pub fn an_exception_is_wrapped()
    ensures { Takes (runs makes_broken) (λ s t. Wrapping (runs makes_broken) 2 s t × RunsIn (runs makes_broken) (codes "Main") (codes "main") t
        × HasObject 3 Thrown (codes "java/lang/ExceptionInInitializerError") t × (t.world.kept ≡ 2 ∷ []) × (t.mode ≡ throwing 3)) }
{}

/// The next trigger throws a NoClassDefFoundError.
pub fn a_failed_class_is_denied()
    ensures { Takes (runs makes_broken) (λ s t. Denying (runs makes_broken) (codes "Broken") s t × Shows 6 [] t
        × HasObject 4 Thrown (codes "java/lang/NoClassDefFoundError") t × (t.mode ≡ throwing 4)) }
{}

/// The exception may go on as it is.
pub fn an_exception_leaves_an_initialiser()
    ensures { Takes (runs makes_broken) (λ s t. Unwinding (runs makes_broken) 2 s t × RunsIn (runs makes_broken) (codes "Broken") initialiser_name s
        × RunsIn (runs makes_broken) (codes "Main") (codes "main") t × (t.mode ≡ throwing 2)) }
{}
