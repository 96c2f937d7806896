//! Steps within a method.

ghost use Rattle.std.specs.Prelude.{codes, [], ◌∷◌};
ghost use Rattle.op_model.specs.declared.op.Op.TheVariants.{Assign, Load, Store, LoadElement, StoreElement, LoadStatic, StoreStatic, New, NewArray, Constant, Cast, Probe};
ghost use Rattle.machine_bytecode.specs.Objects.{string_name};
ghost use Rattle.machine_bytecode.specs.Start.{boot_site};
ghost use Rattle.machine_bytecode.specs.States.{primitive_value, reference_to};
ghost use Rattle.example_machine.specs.Within.{runs_with_arguments, makes, switch, wide_iinc, links, counts, statics, constant, tables, boxes, box_cast, argument};
ghost use Rattle.example_nodes.specs.Lowering.{site_in, field_no, primitive_in};
ghost use Rattle.example_nodes.specs.Taking.{TakesNode, OperatesTo};
ghost use Rattle.example_nodes.specs.Within.{given_main, MakesOperation, makes_nodes, switch_nodes, wide_iinc_nodes, links_nodes, counts_nodes, statics_nodes, constant_nodes, tables_nodes, boxes_nodes, box_cast_nodes, argument_nodes};

/// An object is made by new.
pub fn an_object_is_made()
    ensures { MakesOperation makes makes_nodes (New (site_in 0 0 (codes "lib/Box")) 0) 3 (reference_to 3 ∷ []) }
{}

/// The object that stands for the string constants is loaded by ldc.
pub fn a_string_is_loaded()
    ensures { MakesOperation constant constant_nodes (Constant (boot_site string_name) 0) 2 (reference_to 0 ∷ []) }
{}

/// A switch may go to its default: each successor of its node is open.
pub fn a_switch_goes_to_its_default()
    ensures { MakesOperation switch switch_nodes (Assign (primitive_in 0 ∷ [])) 20 [] }
{}

/// It may go to another target.
pub fn a_switch_goes_to_another_target()
    ensures { MakesOperation switch switch_nodes (Assign (primitive_in 0 ∷ [])) 21 [] }
{}

/// A wide iinc writes a local variable.
pub fn a_wide_increment_advances()
    ensures { MakesOperation wide_iinc wide_iinc_nodes (Assign (primitive_in 0 ∷ [])) 8 (primitive_value ∷ []) }
{}

/// getstatic reads the object that a stub's field holds from the start.
pub fn a_held_object_is_read()
    ensures { MakesOperation links links_nodes (LoadStatic (field_no 1) 0) 3 (reference_to 2 ∷ []) }
{}

/// putfield writes a field, after which no operand is left.
pub fn a_field_is_written()
    ensures { MakesOperation links links_nodes (Store 0 (field_no 2) 1) 9 [] }
{}

/// getfield reads what was written.
pub fn a_field_is_read()
    ensures { MakesOperation links links_nodes (Load 0 (field_no 2) 0) 15 (reference_to 2 ∷ []) }
{}

/// putfield of a primitive type looks at the object.
pub fn a_primitive_field_is_written()
    ensures { MakesOperation counts counts_nodes (Probe 0) 7 [] }
{}

/// putstatic writes a static field.
pub fn a_static_field_is_written()
    ensures { MakesOperation statics statics_nodes (StoreStatic (field_no 0) 0) 6 [] }
{}

/// A cast passes an object that fits.
pub fn a_cast_passes_an_object()
    ensures { MakesOperation box_cast box_cast_nodes (Cast (codes "lib/Box") 0) 6 (reference_to 2 ∷ []) }
{}

/// multianewarray makes an array of arrays.
pub fn an_array_of_arrays_is_made()
    ensures { MakesOperation tables tables_nodes (NewArray (site_in 0 2 (codes "[[I") ∷ site_in 0 2 (codes "[I") ∷ []) 0) 6 (reference_to 3 ∷ []) }
{}

/// aastore writes an element.
pub fn an_element_is_written()
    ensures { MakesOperation boxes boxes_nodes (StoreElement 1 3) 11 (reference_to 3 ∷ []) }
{}

/// aaload reads an element of the array of the arguments.
pub fn an_argument_is_read()
    ensures { TakesNode (runs_with_arguments argument) (given_main argument_nodes) (OperatesTo (runs_with_arguments argument) (given_main argument_nodes) (LoadElement 1 1) 3 (reference_to 3 ∷ reference_to 0 ∷ [])) }
{}
