//! That nodes of methods that test, load other constants, or look at objects, written by hand, are those that the rules give.

ghost use Rattle.example_machine.specs.Within.{main_pool, program_with, branch, numbers, null_cast, null_branch, box_branch, same_branch, other_branch, lookup, class_constant, monitor, first_number};
ghost use Rattle.lowering_spec.specs.LoweredMethods.{IsLowered};
ghost use Rattle.example_nodes.specs.Decoded.{branch_code, branch_graph, numbers_code, numbers_graph, null_cast_code, null_cast_graph, null_branch_code, null_branch_graph, box_branch_code, box_branch_graph, same_branch_code, same_branch_graph, other_branch_code, other_branch_graph, lookup_code, lookup_graph, class_constant_code, class_constant_graph, monitor_code, monitor_graph, first_number_code, first_number_graph};
ghost use Rattle.example_nodes.specs.Within.{branch_nodes, numbers_nodes, null_cast_nodes, null_branch_nodes, box_branch_nodes, same_branch_nodes, other_branch_nodes, lookup_nodes, class_constant_nodes, monitor_nodes, first_number_nodes};

/// The nodes of a method with a branch.
pub fn nodes_of_branch()
    ensures { IsLowered (program_with 7 branch) 0 main_pool branch_code branch_graph branch_nodes }
{}

/// Those of one that makes an array of numbers, and reads its length.
pub fn nodes_of_numbers()
    ensures { IsLowered (program_with 7 numbers) 0 main_pool numbers_code numbers_graph numbers_nodes }
{}

/// Those of one that casts null.
pub fn nodes_of_null_cast()
    ensures { IsLowered (program_with 7 null_cast) 0 main_pool null_cast_code null_cast_graph null_cast_nodes }
{}

/// Those of one that tests for null.
pub fn nodes_of_null_branch()
    ensures { IsLowered (program_with 7 null_branch) 0 main_pool null_branch_code null_branch_graph null_branch_nodes }
{}

/// Those of one that tests an object for null.
pub fn nodes_of_box_branch()
    ensures { IsLowered (program_with 7 box_branch) 0 main_pool box_branch_code box_branch_graph box_branch_nodes }
{}

/// Those of one that compares an object with itself.
pub fn nodes_of_same_branch()
    ensures { IsLowered (program_with 7 same_branch) 0 main_pool same_branch_code same_branch_graph same_branch_nodes }
{}

/// Those of one that compares an object with null.
pub fn nodes_of_other_branch()
    ensures { IsLowered (program_with 7 other_branch) 0 main_pool other_branch_code other_branch_graph other_branch_nodes }
{}

/// Those of one with a lookupswitch.
pub fn nodes_of_lookup()
    ensures { IsLowered (program_with 7 lookup) 0 main_pool lookup_code lookup_graph lookup_nodes }
{}

/// Those of one that loads a class.
pub fn nodes_of_class_constant()
    ensures { IsLowered (program_with 7 class_constant) 0 main_pool class_constant_code class_constant_graph class_constant_nodes }
{}

/// Those of one with monitors.
pub fn nodes_of_monitor()
    ensures { IsLowered (program_with 7 monitor) 0 main_pool monitor_code monitor_graph monitor_nodes }
{}

/// Those of one that reads an element of an array of numbers.
pub fn nodes_of_first_number()
    ensures { IsLowered (program_with 7 first_number) 0 main_pool first_number_code first_number_graph first_number_nodes }
{}
