//! That nodes of methods with handlers, or with instructions that raise, written by hand, are those that the rules give.

ghost use Rattle.example_machine.specs.Excepting.{main_pool, program_with, catches_above, catches_here};
ghost use Rattle.example_machine.specs.Within.{main_pool as within_pool, misfit, division, string_cast, null_throw, null_field};
ghost use Rattle.lowering_spec.specs.LoweredMethods.{IsLowered};
ghost use Rattle.example_nodes.specs.Decoded.{catches_above_code, catches_above_graph, inner_code, inner_graph, misfit_code, misfit_graph, division_code, division_graph, string_cast_code, string_cast_graph, null_throw_code, null_throw_graph, null_field_code, null_field_graph, catches_here_code, catches_here_graph, middle_code, middle_graph};
ghost use Rattle.example_nodes.specs.Excepting.{catches_above_nodes, inner_nodes, catches_here_nodes, middle_nodes};
ghost use Rattle.example_nodes.specs.Raising.{program_with as raising, misfit_nodes, division_nodes, string_cast_nodes, null_throw_nodes, null_field_nodes};

/// The nodes of a method with a handler.
pub fn nodes_of_catches_above()
    ensures { IsLowered (program_with catches_above) 0 main_pool catches_above_code catches_above_graph catches_above_nodes }
{}

/// Those of one that throws.
pub fn nodes_of_inner()
    ensures { IsLowered (program_with catches_above) 2 main_pool inner_code inner_graph inner_nodes }
{}

/// Those of one whose instructions may raise: the classes that they may throw are those of the program.
pub fn nodes_of_misfit()
    ensures { IsLowered (raising misfit) 0 within_pool misfit_code misfit_graph misfit_nodes }
{}

/// Those of one with a division.
pub fn nodes_of_division()
    ensures { IsLowered (raising division) 0 within_pool division_code division_graph division_nodes }
{}

/// Those of one whose cast may raise.
pub fn nodes_of_string_cast()
    ensures { IsLowered (raising string_cast) 0 within_pool string_cast_code string_cast_graph string_cast_nodes }
{}

/// Those of one that throws null.
pub fn nodes_of_null_throw()
    ensures { IsLowered (raising null_throw) 0 within_pool null_throw_code null_throw_graph null_throw_nodes }
{}

/// Those of one that reads a field of null.
pub fn nodes_of_null_field()
    ensures { IsLowered (raising null_field) 0 within_pool null_field_code null_field_graph null_field_nodes }
{}

/// Those of one with two handlers.
pub fn nodes_of_catches_here()
    ensures { IsLowered (program_with catches_here) 0 main_pool catches_here_code catches_here_graph catches_here_nodes }
{}

/// Those of one that catches errors alone.
pub fn nodes_of_middle()
    ensures { IsLowered (program_with catches_above) 1 main_pool middle_code middle_graph middle_nodes }
{}
