//! Tests, other constants, and objects that must be there.

ghost use Rattle.std.specs.Prelude.{codes, [], ◌∷◌};
ghost use Rattle.op_model.specs.declared.op.Op.TheVariants.{Assign, Constant, Cast, Probe};
ghost use Rattle.machine_bytecode.specs.Start.{boot_site};
ghost use Rattle.machine_bytecode.specs.States.{primitive_value, null_value, reference_to};
ghost use Rattle.example_machine.specs.Within.{branch, lookup, null_branch, box_branch, same_branch, other_branch, class_constant, null_cast, monitor, numbers, first_number};
ghost use Rattle.example_nodes.specs.Lowering.{primitive_in};
ghost use Rattle.example_nodes.specs.Within.{MakesOperation, branch_nodes, lookup_nodes, null_branch_nodes, box_branch_nodes, same_branch_nodes, other_branch_nodes, class_constant_nodes, null_cast_nodes, monitor_nodes, numbers_nodes, first_number_nodes};

/// A branch may go on at the next instruction.
pub fn a_branch_goes_on()
    ensures { MakesOperation branch branch_nodes (Assign (primitive_in 0 ∷ [])) 4 [] }
{}

/// It may go to its target.
pub fn a_branch_jumps()
    ensures { MakesOperation branch branch_nodes (Assign (primitive_in 0 ∷ [])) 5 [] }
{}

/// A lookupswitch may go to a target.
pub fn a_lookup_goes_to_a_target()
    ensures { MakesOperation lookup lookup_nodes (Assign (primitive_in 0 ∷ [])) 21 [] }
{}

/// ifnull goes to its target, for null.
pub fn a_test_for_null_jumps()
    ensures { MakesOperation null_branch null_branch_nodes (Assign (primitive_in 0 ∷ [])) 5 [] }
{}

/// It goes on at the next instruction, for an object.
pub fn a_test_for_null_goes_on()
    ensures { MakesOperation box_branch box_branch_nodes (Assign (primitive_in 0 ∷ [])) 6 [] }
{}

/// if_acmpeq goes to its target, for one object twice.
pub fn a_test_of_one_object_jumps()
    ensures { MakesOperation same_branch same_branch_nodes (Assign (primitive_in 0 ∷ primitive_in 1 ∷ [])) 10 [] }
{}

/// It goes on at the next instruction, for two references that differ.
pub fn a_test_of_two_references_goes_on()
    ensures { MakesOperation other_branch other_branch_nodes (Assign (primitive_in 0 ∷ primitive_in 1 ∷ [])) 7 [] }
{}

/// The object that stands for the class constants is loaded by ldc.
pub fn a_class_is_loaded()
    ensures { MakesOperation class_constant class_constant_nodes (Constant (boot_site (codes "java/lang/Class")) 0) 2 (reference_to 1 ∷ []) }
{}

/// A cast passes null.
pub fn a_cast_passes_null()
    ensures { MakesOperation null_cast null_cast_nodes (Cast (codes "lib/Box") 0) 4 (null_value ∷ []) }
{}

/// monitorenter looks at the object.
pub fn a_monitor_is_entered()
    ensures { MakesOperation monitor monitor_nodes (Probe 0) 4 [] }
{}

/// arraylength looks at the array.
pub fn the_length_of_an_array_is_read()
    ensures { MakesOperation numbers numbers_nodes (Probe 0) 4 (primitive_value ∷ []) }
{}

/// iaload looks at the array.
pub fn a_number_is_read()
    ensures { MakesOperation first_number first_number_nodes (Probe 0) 5 (primitive_value ∷ []) }
{}
