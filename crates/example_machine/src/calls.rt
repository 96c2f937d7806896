//! Calls, and what they give.

ghost use Rattle.std.specs.Prelude.{codes, ◌≡◌, [], ◌∷◌};
ghost use Rattle.jvm_model.specs.declared.site.SiteKind.TheVariants.{Result, Thrown};
ghost use Rattle.machine_bytecode.specs.States.{primitive_value, null_value, reference_to, ended};
ghost use Rattle.example_machine.specs.Calling.{runs, calls_same, closes, closes_by_interface, shuts, hashes, counts, rings, gets_none, gets_same, gets_fresh, keeps, fails, creates, hashes_gate, shuts_door, picks, gets_me, reads_title};
ghost use Rattle.example_machine.specs.Patching.{calls_native};
ghost use Rattle.example_machine.specs.Taking.{Takes, Shows, HasObject, InState, Advancing, Entering, GettingResult, GettingException, Returning, EnteringEntry, Ending, Catching};

/// The start calls the entry.
pub fn the_entry_is_called()
    ensures { Takes (runs rings) (λ s t. EnteringEntry (runs rings) s t × Shows 0 [] t) }
{}

/// The entry returns to the start.
pub fn the_entry_returns()
    ensures { Takes (runs rings) (λ s t. Returning (runs rings) (codes "return") s t × Shows 1 [] t) }
{}

/// The start returns, and the machine has ended.
pub fn a_program_ends()
    ensures { Takes (runs rings) (λ s t. Ending s t × (t.mode ≡ ended)) }
{}

/// A static method is called: the argument is its first local variable.
pub fn a_static_method_is_called()
    ensures { Takes (runs calls_same) (λ s t. Entering (runs calls_same) (codes "invokestatic") (codes "Main") (codes "same") s t × Shows 0 (primitive_value ∷ []) t) }
{}

/// It returns a number, and its caller goes on after the call, with the number.
pub fn a_method_returns_a_result()
    ensures { Takes (runs calls_same) (λ s t. Returning (runs calls_same) (codes "ireturn") s t × Shows 4 (primitive_value ∷ []) t) }
{}

/// A door's method is called on a gate: the gate's own method is selected. The call is an event, and the gate, which was opened
/// (0), is closed then (1).
pub fn an_override_is_selected()
    ensures { Takes (runs closes) (λ s t. Entering (runs closes) (codes "invokevirtual") (codes "Gate") (codes "close") s t × Shows 0 (reference_to 2 ∷ []) t × InState 2 0 s × InState 2 1 t) }
{}

/// The second such call brings the gate into the error state.
pub fn an_event_leads_to_the_error()
    ensures { Takes (runs closes) (λ s t. Entering (runs closes) (codes "invokevirtual") (codes "Gate") (codes "close") s t × InState 2 1 s × InState 2 (runs closes).property.error t) }
{}

/// A method of the superclass is called by `invokespecial`: it is no event.
pub fn a_method_of_the_superclass_is_called()
    ensures { Takes (runs closes) (λ s t. Entering (runs closes) (codes "invokespecial") (codes "Door") (codes "close") s t × Shows 0 (reference_to 2 ∷ []) t × (t.world ≡ s.world)) }
{}

/// An interface's method is called: the gate's is selected, and the call is an event.
pub fn an_interface_method_is_called()
    ensures { Takes (runs closes_by_interface) (λ s t. Entering (runs closes_by_interface) (codes "invokeinterface") (codes "Gate") (codes "close") s t × Shows 0 (reference_to 2 ∷ []) t × InState 2 1 t) }
{}

/// Where no class declares the method that is called, that of the interface is selected, which is not abstract.
pub fn a_default_is_selected()
    ensures { Takes (runs shuts) (λ s t. Entering (runs shuts) (codes "invokeinterface") (codes "Closing") (codes "shut") s t × Shows 0 (reference_to 2 ∷ []) t × (t.world ≡ s.world)) }
{}

/// A call on an array goes to the method of java/lang/Object.
pub fn an_array_is_called()
    ensures { Takes (runs hashes) (λ s t. GettingResult (runs hashes) (codes "invokevirtual") (codes "java/lang/Object") (codes "hashCode") s t × Shows 6 (primitive_value ∷ []) t) }
{}

/// A described method gives a primitive.
pub fn a_primitive_is_given()
    ensures { Takes (runs counts) (λ s t. GettingResult (runs counts) (codes "invokestatic") (codes "lib/House") (codes "count") s t × Shows 3 (primitive_value ∷ []) t) }
{}

/// It gives nothing.
pub fn nothing_is_given()
    ensures { Takes (runs rings) (λ s t. GettingResult (runs rings) (codes "invokestatic") (codes "lib/House") (codes "ring") s t × Shows 3 [] t) }
{}

/// It gives null.
pub fn null_is_given()
    ensures { Takes (runs gets_none) (λ s t. GettingResult (runs gets_none) (codes "invokestatic") (codes "lib/House") (codes "none") s t × Shows 3 (null_value ∷ []) t) }
{}

/// It gives its argument back.
pub fn an_argument_is_given_back()
    ensures { Takes (runs gets_same) (λ s t. GettingResult (runs gets_same) (codes "invokestatic") (codes "lib/House") (codes "same") s t × Shows 6 (reference_to 2 ∷ []) t) }
{}

/// It gives a new object.
pub fn a_new_object_is_given()
    ensures { Takes (runs gets_fresh) (λ s t. GettingResult (runs gets_fresh) (codes "invokestatic") (codes "lib/House") (codes "fresh") s t × Shows 3 (reference_to 3 ∷ []) t × HasObject 3 Result (codes "Gate") t) }
{}

/// It keeps its argument.
pub fn an_argument_is_kept()
    ensures { Takes (runs keeps) (λ s t. GettingResult (runs keeps) (codes "invokestatic") (codes "lib/House") (codes "put") s t × Shows 6 [] t × (t.world.kept ≡ 2 ∷ [])) }
{}

/// Another one gives it, since it was kept.
pub fn a_kept_object_is_given()
    ensures { Takes (runs keeps) (λ s t. GettingResult (runs keeps) (codes "invokestatic") (codes "lib/House") (codes "take") s t × Shows 9 (reference_to 2 ∷ []) t) }
{}

/// A described method throws: a new object is made.
pub fn a_described_method_throws()
    ensures { Takes (runs fails) (λ s t. GettingException (runs fails) (codes "invokestatic") (codes "lib/House") (codes "fail") s t × HasObject 3 Thrown (codes "java/lang/Exception") t) }
{}

/// The caller catches it: the handler has the object as its only operand.
pub fn its_exception_is_caught()
    ensures { Takes (runs fails) (λ s t. Catching (runs fails) 3 (codes "java/lang/Exception") s t × Shows 4 (reference_to 3 ∷ []) t) }
{}

/// A constructor is called, on an object that was made: it is searched from the class that is named.
pub fn a_constructor_is_called()
    ensures { Takes (runs creates) (λ s t. GettingResult (runs creates) (codes "invokespecial") (codes "java/lang/Object") (codes "<init>") s t × Shows 7 (reference_to 3 ∷ []) t) }
{}

/// A method of java/lang/Object is called as one of an interface.
pub fn a_method_of_object_is_called_through_an_interface()
    ensures { Takes (runs hashes_gate) (λ s t. GettingResult (runs hashes_gate) (codes "invokeinterface") (codes "java/lang/Object") (codes "hashCode") s t × Shows 8 (primitive_value ∷ []) t) }
{}

/// A method of an interface that is not abstract is called as one of a class that does not declare it.
pub fn a_default_is_called_on_a_class()
    ensures { Takes (runs shuts_door) (λ s t. Entering (runs shuts_door) (codes "invokevirtual") (codes "Closing") (codes "shut") s t × Shows 0 (reference_to 2 ∷ []) t) }
{}

/// A described method gives its second argument back, which stands after the receiver and the two units of a long.
pub fn an_argument_after_a_long_is_given_back()
    ensures { Takes (runs picks) (λ s t. GettingResult (runs picks) (codes "invokevirtual") (codes "lib/House") (codes "pick") s t × Shows 10 (reference_to 2 ∷ []) t) }
{}

/// It gives its receiver back.
pub fn a_receiver_is_given_back()
    ensures { Takes (runs gets_me) (λ s t. GettingResult (runs gets_me) (codes "invokevirtual") (codes "lib/House") (codes "me") s t × Shows 6 (reference_to 3 ∷ []) t) }
{}

/// A native method is called, which a patch describes.
pub fn a_native_method_is_called()
    ensures { Takes calls_native (λ s t. GettingResult calls_native (codes "invokestatic") (codes "Main") (codes "ping") s t × Shows 3 (primitive_value ∷ []) t) }
{}

/// A static field of type String begins with null.
pub fn a_string_begins_with_null()
    ensures { Takes (runs reads_title) (λ s t. Advancing (runs reads_title) (codes "getstatic") s t × Shows 3 (null_value ∷ []) t) }
{}

/// Or with a string, since it may have a constant value.
pub fn a_string_begins_with_a_constant()
    ensures { Takes (runs reads_title) (λ s t. Advancing (runs reads_title) (codes "getstatic") s t × Shows 3 (reference_to 0 ∷ []) t) }
{}
