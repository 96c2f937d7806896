//! Steps within a method.

ghost use Rattle.std.specs.Prelude.{codes, ◌≡◌, [], ◌∷◌};
ghost use Rattle.jvm_model.specs.declared.site.SiteKind.TheVariants.{Boot, New, Thrown};
ghost use Rattle.machine_bytecode.specs.Objects.{ReadsField};
ghost use Rattle.machine_bytecode.specs.States.{primitive_value, null_value, reference_to};
ghost use Rattle.example_machine.specs.Taking.{Takes, Shows, HasObject, HasArray, Advancing, Raising};
ghost use Rattle.example_machine.specs.Within.{runs, runs_with_arguments, branch, switch, wide_iinc, links, counts, statics, constant, makes, numbers, tables, boxes, misfit, division, null_cast, box_cast, string_cast, argument, array_cast, null_branch, box_branch, same_branch, other_branch, null_jump, box_jump, same_jump, other_jump, two_branch, string_branch, shuffles, lookup, class_constant, monitor, first_number, null_field, null_throw};

/// A constant is pushed: a plain step.
pub fn a_constant_is_pushed()
    ensures { Takes (runs branch) (λ s t. Advancing (runs branch) (codes "iconst_0") s t × Shows 1 (primitive_value ∷ []) t) }
{}

/// A branch may go on at the next instruction, since the value of its number is left open.
pub fn a_branch_goes_on()
    ensures { Takes (runs branch) (λ s t. Advancing (runs branch) (codes "ifeq") s t × Shows 4 [] t) }
{}

/// It may go to its target.
pub fn a_branch_jumps()
    ensures { Takes (runs branch) (λ s t. Advancing (runs branch) (codes "ifeq") s t × Shows 5 [] t) }
{}

/// A switch may go to its default.
pub fn a_switch_goes_to_its_default()
    ensures { Takes (runs switch) (λ s t. Advancing (runs switch) (codes "tableswitch") s t × Shows 20 [] t) }
{}

/// It may go to another target.
pub fn a_switch_goes_to_another_target()
    ensures { Takes (runs switch) (λ s t. Advancing (runs switch) (codes "tableswitch") s t × Shows 21 [] t) }
{}

/// An increment that `wide` stands before has four bytes of operands, and leaves a primitive in its local variable.
pub fn a_wide_increment_advances()
    ensures { Takes (runs wide_iinc) (λ s t. Advancing (runs wide_iinc) (codes "iinc") s t × Shows 8 (primitive_value ∷ []) t) }
{}

/// A string is loaded: the object that stands for all strings.
pub fn a_string_is_loaded()
    ensures { Takes (runs constant) (λ s t. Advancing (runs constant) (codes "ldc") s t × Shows 2 (reference_to 0 ∷ []) t × HasObject 0 Boot (codes "java/lang/String") t) }
{}

/// `new` makes an object, after those that are there from the start.
pub fn an_object_is_made()
    ensures { Takes (runs makes) (λ s t. Advancing (runs makes) (codes "new") s t × Shows 3 (reference_to 3 ∷ []) t × HasObject 3 New (codes "lib/Box") t) }
{}

/// A static field of the library is read, which holds an object from the start.
pub fn a_held_object_is_read()
    ensures { Takes (runs links) (λ s t. Advancing (runs links) (codes "getstatic") s t × Shows 3 (reference_to 2 ∷ []) t × HasObject 2 Boot (codes "lib/Box") t) }
{}

/// A field of an object is written: it has the value afterwards. The fields of the program are `last`, `it`, `next` and `count`.
pub fn a_field_is_written()
    ensures { Takes (runs links) (λ s t. Advancing (runs links) (codes "putfield") s t × Shows 9 [] t × ReadsField t.world (reference_to 2) 2 (reference_to 2)) }
{}

/// It is read: the value that was written is pushed.
pub fn a_field_is_read()
    ensures { Takes (runs links) (λ s t. Advancing (runs links) (codes "getfield") s t × Shows 15 (reference_to 2 ∷ []) t) }
{}

/// A field of a primitive type is written: the value is popped, and the world stays as it is.
pub fn a_primitive_field_is_written()
    ensures { Takes (runs counts) (λ s t. Advancing (runs counts) (codes "putfield") s t × Shows 7 [] t × (t.world ≡ s.world)) }
{}

/// It is read: some primitive is pushed.
pub fn a_primitive_field_is_read()
    ensures { Takes (runs counts) (λ s t. Advancing (runs counts) (codes "getfield") s t × Shows 13 (primitive_value ∷ []) t) }
{}

/// A static field is written: it has the value afterwards.
pub fn a_static_field_is_written()
    ensures { Takes (runs statics) (λ s t. Advancing (runs statics) (codes "putstatic") s t × Shows 6 [] t × (t.world.statics 0 ≡ reference_to 2)) }
{}

/// It is read: the value that was written is pushed.
pub fn a_static_field_is_read()
    ensures { Takes (runs statics) (λ s t. Advancing (runs statics) (codes "getstatic") s t × Shows 9 (reference_to 2 ∷ []) t × (t.world ≡ s.world)) }
{}

/// `newarray` makes an array of primitives, here of two.
pub fn an_array_of_numbers_is_made()
    ensures { Takes (runs numbers) (λ s t. Advancing (runs numbers) (codes "newarray") s t × Shows 3 (reference_to 3 ∷ []) t × HasArray 3 (codes "[I") (primitive_value ∷ primitive_value ∷ []) t) }
{}

/// The length of an array is a primitive.
pub fn the_length_of_an_array_is_read()
    ensures { Takes (runs numbers) (λ s t. Advancing (runs numbers) (codes "arraylength") s t × Shows 4 (primitive_value ∷ []) t) }
{}

/// `multianewarray` makes arrays of two dimensions, here two arrays of one number each: they stand after the array that holds them.
pub fn an_array_of_arrays_is_made()
    ensures { Takes (runs tables) (λ s t. Advancing (runs tables) (codes "multianewarray") s t × Shows 6 (reference_to 3 ∷ []) t × HasArray 3 (codes "[[I") (reference_to 4 ∷ reference_to 5 ∷ []) t
        × HasArray 4 (codes "[I") (primitive_value ∷ []) t × HasArray 5 (codes "[I") (primitive_value ∷ []) t) }
{}

/// `anewarray` makes an array of nulls.
pub fn an_array_of_references_is_made()
    ensures { Takes (runs boxes) (λ s t. Advancing (runs boxes) (codes "anewarray") s t × Shows 4 (primitive_value ∷ reference_to 3 ∷ []) t × HasArray 3 (codes "[Llib/Box;") (null_value ∷ []) t) }
{}

/// An element of an array of references is written.
pub fn an_element_is_written()
    ensures { Takes (runs boxes) (λ s t. Advancing (runs boxes) (codes "aastore") s t × Shows 11 (reference_to 3 ∷ []) t × HasArray 3 (codes "[Llib/Box;") (reference_to 2 ∷ []) t) }
{}

/// It is read.
pub fn an_element_is_read()
    ensures { Takes (runs boxes) (λ s t. Advancing (runs boxes) (codes "aaload") s t × Shows 14 (reference_to 3 ∷ reference_to 2 ∷ []) t) }
{}

/// An object that does not fit the type of the elements is stored: an exception is raised, and its object is made.
pub fn a_misfit_is_not_stored()
    ensures { Takes (runs misfit) (λ s t. Raising (runs misfit) (codes "aastore") (codes "java/lang/ArrayStoreException") s t × HasObject 4 Thrown (codes "java/lang/ArrayStoreException") t) }
{}

/// A division may raise an exception.
pub fn a_division_raises()
    ensures { Takes (runs division) (λ s t. Raising (runs division) (codes "idiv") (codes "java/lang/ArithmeticException") s t × HasObject 3 Thrown (codes "java/lang/ArithmeticException") t) }
{}

/// Null passes a cast.
pub fn a_cast_passes_null()
    ensures { Takes (runs null_cast) (λ s t. Advancing (runs null_cast) (codes "checkcast") s t × Shows 4 (null_value ∷ []) t) }
{}

/// So does an object of the class.
pub fn a_cast_passes_an_object()
    ensures { Takes (runs box_cast) (λ s t. Advancing (runs box_cast) (codes "checkcast") s t × Shows 6 (reference_to 2 ∷ []) t) }
{}

/// So does an array whose elements are of a subclass.
pub fn a_cast_passes_an_array()
    ensures { Takes (runs array_cast) (λ s t. Advancing (runs array_cast) (codes "checkcast") s t × Shows 7 (reference_to 3 ∷ []) t × HasArray 3 (codes "[Llib/Box;") (null_value ∷ []) t) }
{}

/// A cast of an object that does not fit raises an exception.
pub fn a_cast_raises()
    ensures { Takes (runs string_cast) (λ s t. Raising (runs string_cast) (codes "checkcast") (codes "java/lang/ClassCastException") s t × HasObject 3 Thrown (codes "java/lang/ClassCastException") t) }
{}

/// The entry gets an array of strings, and an element of it is read.
pub fn an_argument_is_read()
    ensures { Takes (runs_with_arguments argument) (λ s t. Advancing (runs_with_arguments argument) (codes "aaload") s t × Shows 3 (reference_to 3 ∷ reference_to 0 ∷ []) t) }
{}

/// A test for null jumps at null.
pub fn a_test_for_null_jumps()
    ensures { Takes (runs null_branch) (λ s t. Advancing (runs null_branch) (codes "ifnull") s t × Shows 5 [] t) }
{}

/// At an object it goes on.
pub fn a_test_for_null_goes_on()
    ensures { Takes (runs box_branch) (λ s t. Advancing (runs box_branch) (codes "ifnull") s t × Shows 6 [] t) }
{}

/// A test whether two references are the same jumps at one object.
pub fn a_test_of_one_object_jumps()
    ensures { Takes (runs same_branch) (λ s t. Advancing (runs same_branch) (codes "if_acmpeq") s t × Shows 10 [] t) }
{}

/// At an object and null it goes on.
pub fn a_test_of_two_references_goes_on()
    ensures { Takes (runs other_branch) (λ s t. Advancing (runs other_branch) (codes "if_acmpeq") s t × Shows 7 [] t) }
{}

/// A test for an object jumps at an object.
pub fn a_test_for_an_object_jumps()
    ensures { Takes (runs box_jump) (λ s t. Advancing (runs box_jump) (codes "ifnonnull") s t × Shows 7 [] t) }
{}

/// At null it goes on.
pub fn a_test_for_an_object_goes_on()
    ensures { Takes (runs null_jump) (λ s t. Advancing (runs null_jump) (codes "ifnonnull") s t × Shows 4 [] t) }
{}

/// A test whether two references differ jumps at an object and null.
pub fn a_test_of_two_references_jumps()
    ensures { Takes (runs other_jump) (λ s t. Advancing (runs other_jump) (codes "if_acmpne") s t × Shows 8 [] t) }
{}

/// At one object that was made it goes on.
pub fn a_test_of_one_object_goes_on()
    ensures { Takes (runs same_jump) (λ s t. Advancing (runs same_jump) (codes "if_acmpne") s t × Shows 7 [] t) }
{}

/// A test whether two references are the same goes on at two objects that were made.
pub fn a_test_of_two_objects_goes_on()
    ensures { Takes (runs two_branch) (λ s t. Advancing (runs two_branch) (codes "if_acmpeq") s t × Shows 9 [] t) }
{}

/// At two strings it may jump, since they may be one object.
pub fn a_test_of_two_strings_jumps()
    ensures { Takes (runs string_branch) (λ s t. Advancing (runs string_branch) (codes "if_acmpeq") s t × Shows 8 [] t) }
{}

/// It may go on, since one object stands for all strings.
pub fn a_test_of_two_strings_goes_on()
    ensures { Takes (runs string_branch) (λ s t. Advancing (runs string_branch) (codes "if_acmpeq") s t × Shows 7 [] t) }
{}

/// A `lookupswitch` may go to the target of a key.
pub fn a_lookup_goes_to_a_target()
    ensures { Takes (runs lookup) (λ s t. Advancing (runs lookup) (codes "lookupswitch") s t × Shows 21 [] t) }
{}

/// A class is loaded: the object that stands for all classes.
pub fn a_class_is_loaded()
    ensures { Takes (runs class_constant) (λ s t. Advancing (runs class_constant) (codes "ldc") s t × Shows 2 (reference_to 1 ∷ []) t × HasObject 1 Boot (codes "java/lang/Class") t) }
{}

/// The monitor of an object is entered.
pub fn a_monitor_is_entered()
    ensures { Takes (runs monitor) (λ s t. Advancing (runs monitor) (codes "monitorenter") s t × Shows 4 [] t × (t.world ≡ s.world)) }
{}

/// An element of an array of numbers is some primitive.
pub fn a_number_is_read()
    ensures { Takes (runs first_number) (λ s t. Advancing (runs first_number) (codes "iaload") s t × Shows 5 (primitive_value ∷ []) t) }
{}

/// The index may be none of the array.
pub fn an_index_raises()
    ensures { Takes (runs first_number) (λ s t. Raising (runs first_number) (codes "iaload") (codes "java/lang/ArrayIndexOutOfBoundsException") s t × HasObject 4 Thrown (codes "java/lang/ArrayIndexOutOfBoundsException") t) }
{}

/// The size of a new array may be negative.
pub fn a_size_raises()
    ensures { Takes (runs numbers) (λ s t. Raising (runs numbers) (codes "newarray") (codes "java/lang/NegativeArraySizeException") s t × HasObject 3 Thrown (codes "java/lang/NegativeArraySizeException") t) }
{}

/// A field of null is read.
pub fn a_field_of_null_raises()
    ensures { Takes (runs null_field) (λ s t. Raising (runs null_field) (codes "getfield") (codes "java/lang/NullPointerException") s t × HasObject 3 Thrown (codes "java/lang/NullPointerException") t) }
{}

/// Null is thrown.
pub fn a_throw_of_null_raises()
    ensures { Takes (runs null_throw) (λ s t. Raising (runs null_throw) (codes "athrow") (codes "java/lang/NullPointerException") s t × HasObject 3 Thrown (codes "java/lang/NullPointerException") t) }
{}

/// The upper unit is copied below the one under it. From here on each unit is null or a primitive.
pub fn a_unit_is_copied_below_one()
    ensures { Takes (runs shuffles) (λ s t. Advancing (runs shuffles) (codes "dup_x1") s t × Shows 3 (primitive_value ∷ null_value ∷ primitive_value ∷ []) t) }
{}

/// It is copied below the two under it.
pub fn a_unit_is_copied_below_two()
    ensures { Takes (runs shuffles) (λ s t. Advancing (runs shuffles) (codes "dup_x2") s t × Shows 4 (primitive_value ∷ primitive_value ∷ null_value ∷ primitive_value ∷ []) t) }
{}

/// The two upper units are copied.
pub fn two_units_are_copied()
    ensures { Takes (runs shuffles) (λ s t. Advancing (runs shuffles) (codes "dup2") s t × Shows 5 (primitive_value ∷ primitive_value ∷ null_value ∷ primitive_value ∷ null_value ∷ primitive_value ∷ []) t) }
{}

/// They are copied below the one under them.
pub fn two_units_are_copied_below_one()
    ensures { Takes (runs shuffles) (λ s t. Advancing (runs shuffles) (codes "dup2_x1") s t × Shows 6 (primitive_value ∷ primitive_value ∷ null_value ∷ null_value ∷ primitive_value ∷ primitive_value ∷ null_value ∷ primitive_value ∷ []) t) }
{}

/// They are copied below the two under them.
pub fn two_units_are_copied_below_two()
    ensures { Takes (runs shuffles) (λ s t. Advancing (runs shuffles) (codes "dup2_x2") s t × Shows 7 (primitive_value ∷ primitive_value ∷ null_value ∷ null_value ∷ null_value ∷ primitive_value ∷ primitive_value ∷ primitive_value ∷ null_value ∷ primitive_value ∷ []) t) }
{}

/// They change places.
pub fn two_units_are_swapped()
    ensures { Takes (runs shuffles) (λ s t. Advancing (runs shuffles) (codes "swap") s t × Shows 8 (primitive_value ∷ primitive_value ∷ null_value ∷ null_value ∷ null_value ∷ primitive_value ∷ primitive_value ∷ primitive_value ∷ primitive_value ∷ null_value ∷ []) t) }
{}
