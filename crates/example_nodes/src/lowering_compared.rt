//! That nodes of methods that compare references, cast an array or put units in another order, written by hand, are those that the
//! rules give.

ghost use Rattle.example_machine.specs.Within.{main_pool, program_with, null_jump, box_jump, same_jump, other_jump, two_branch, string_branch, array_cast, shuffles};
ghost use Rattle.lowering_spec.specs.LoweredMethods.{IsLowered};
ghost use Rattle.example_nodes.specs.Decoded.{null_jump_code, null_jump_graph, box_jump_code, box_jump_graph, same_jump_code, same_jump_graph, other_jump_code, other_jump_graph, two_branch_code, two_branch_graph, string_branch_code, string_branch_graph, array_cast_code, array_cast_graph, shuffles_code, shuffles_graph};
ghost use Rattle.example_nodes.specs.Within.{null_jump_nodes, box_jump_nodes, same_jump_nodes, other_jump_nodes, two_branch_nodes, string_branch_nodes, array_cast_nodes, shuffles_nodes};

/// The nodes of a method that tests null for an object.
pub fn nodes_of_null_jump()
    ensures { IsLowered (program_with 7 null_jump) 0 main_pool null_jump_code null_jump_graph null_jump_nodes }
{}

/// Those of one that tests an object.
pub fn nodes_of_box_jump()
    ensures { IsLowered (program_with 7 box_jump) 0 main_pool box_jump_code box_jump_graph box_jump_nodes }
{}

/// Those of one that compares a new object with itself.
pub fn nodes_of_same_jump()
    ensures { IsLowered (program_with 7 same_jump) 0 main_pool same_jump_code same_jump_graph same_jump_nodes }
{}

/// Those of one that compares an object with null, to jump where they differ.
pub fn nodes_of_other_jump()
    ensures { IsLowered (program_with 7 other_jump) 0 main_pool other_jump_code other_jump_graph other_jump_nodes }
{}

/// Those of one that compares two new objects.
pub fn nodes_of_two_branch()
    ensures { IsLowered (program_with 7 two_branch) 0 main_pool two_branch_code two_branch_graph two_branch_nodes }
{}

/// Those of one that compares two strings.
pub fn nodes_of_string_branch()
    ensures { IsLowered (program_with 7 string_branch) 0 main_pool string_branch_code string_branch_graph string_branch_nodes }
{}

/// Those of one that casts an array.
pub fn nodes_of_array_cast()
    ensures { IsLowered (program_with 7 array_cast) 0 main_pool array_cast_code array_cast_graph array_cast_nodes }
{}

/// Those of one that puts units in another order.
pub fn nodes_of_shuffles()
    ensures { IsLowered (program_with 7 shuffles) 0 main_pool shuffles_code shuffles_graph shuffles_nodes }
{}
