//! Comparisons of references, units in another order, and a cast of an array.

ghost use Rattle.std.specs.Prelude.{[], ◌∷◌};
ghost use Rattle.jvm_model.specs.Programs.{object_name};
ghost use Rattle.jvm_model.specs.Subtypes.{array_of};
ghost use Rattle.op_model.specs.declared.op.Op.TheVariants.{Assign, Cast};
ghost use Rattle.machine_bytecode.specs.States.{primitive_value, null_value, reference_to};
ghost use Rattle.example_machine.specs.Within.{null_jump, box_jump, same_jump, other_jump, two_branch, string_branch, array_cast, shuffles};
ghost use Rattle.example_nodes.specs.Lowering.{primitive_in};
ghost use Rattle.example_nodes.specs.Within.{MakesOperation, null_jump_nodes, box_jump_nodes, same_jump_nodes, other_jump_nodes, two_branch_nodes, string_branch_nodes, array_cast_nodes, shuffles_nodes, below_one, below_two, both, both_below_one, both_below_two, swapped};

/// ifnonnull goes to its target, for an object.
pub fn a_test_for_an_object_jumps()
    ensures { MakesOperation box_jump box_jump_nodes (Assign (primitive_in 0 ∷ [])) 7 [] }
{}

/// It goes on at the next instruction, for null.
pub fn a_test_for_an_object_goes_on()
    ensures { MakesOperation null_jump null_jump_nodes (Assign (primitive_in 0 ∷ [])) 4 [] }
{}

/// if_acmpne goes to its target, for an object and null.
pub fn a_test_of_two_references_jumps()
    ensures { MakesOperation other_jump other_jump_nodes (Assign (primitive_in 0 ∷ primitive_in 1 ∷ [])) 8 [] }
{}

/// It goes on at the next instruction, for one object that was made.
pub fn a_test_of_one_object_goes_on()
    ensures { MakesOperation same_jump same_jump_nodes (Assign (primitive_in 0 ∷ primitive_in 1 ∷ [])) 7 [] }
{}

/// if_acmpeq goes on at the next instruction, for two objects that were made.
pub fn a_test_of_two_objects_goes_on()
    ensures { MakesOperation two_branch two_branch_nodes (Assign (primitive_in 0 ∷ primitive_in 1 ∷ [])) 9 [] }
{}

/// For two strings it may go to its target.
pub fn a_test_of_two_strings_jumps()
    ensures { MakesOperation string_branch string_branch_nodes (Assign (primitive_in 0 ∷ primitive_in 1 ∷ [])) 8 [] }
{}

/// It may go on at the next instruction.
pub fn a_test_of_two_strings_goes_on()
    ensures { MakesOperation string_branch string_branch_nodes (Assign (primitive_in 0 ∷ primitive_in 1 ∷ [])) 7 [] }
{}

/// A cast passes an array whose elements are of a subclass.
pub fn a_cast_passes_an_array()
    ensures { MakesOperation array_cast array_cast_nodes (Cast (array_of object_name) 0) 7 (reference_to 3 ∷ []) }
{}

/// dup_x1 copies the upper unit below the one under it.
pub fn a_unit_is_copied_below_one()
    ensures { MakesOperation shuffles shuffles_nodes (Assign below_one) 3 (primitive_value ∷ null_value ∷ primitive_value ∷ []) }
{}

/// dup_x2 copies it below the two under it.
pub fn a_unit_is_copied_below_two()
    ensures { MakesOperation shuffles shuffles_nodes (Assign below_two) 4 (primitive_value ∷ primitive_value ∷ null_value ∷ primitive_value ∷ []) }
{}

/// dup2 copies the two upper units.
pub fn two_units_are_copied()
    ensures { MakesOperation shuffles shuffles_nodes (Assign both) 5 (primitive_value ∷ primitive_value ∷ null_value ∷ primitive_value ∷ null_value ∷ primitive_value ∷ []) }
{}

/// dup2_x1 copies them below the one under them.
pub fn two_units_are_copied_below_one()
    ensures { MakesOperation shuffles shuffles_nodes (Assign both_below_one) 6 (primitive_value ∷ primitive_value ∷ null_value ∷ null_value ∷ primitive_value ∷ primitive_value ∷ null_value ∷ primitive_value ∷ []) }
{}

/// dup2_x2 copies them below the two under them.
pub fn two_units_are_copied_below_two()
    ensures { MakesOperation shuffles shuffles_nodes (Assign both_below_two) 7 (primitive_value ∷ primitive_value ∷ null_value ∷ null_value ∷ null_value ∷ primitive_value ∷ primitive_value ∷ primitive_value ∷ null_value ∷ primitive_value ∷ []) }
{}

/// swap lets them change places.
pub fn two_units_are_swapped()
    ensures { MakesOperation shuffles shuffles_nodes (Assign swapped) 8 (primitive_value ∷ primitive_value ∷ null_value ∷ null_value ∷ null_value ∷ primitive_value ∷ primitive_value ∷ primitive_value ∷ primitive_value ∷ null_value ∷ []) }
{}
