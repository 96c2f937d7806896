//! That nodes of methods with calls, written by hand, are those that the rules give.

ghost use Rattle.example_machine.specs.Calling.{main_pool, gate_pool, program_with, gets_same, closes, shuts};
ghost use Rattle.lowering_spec.specs.LoweredMethods.{IsLowered};
ghost use Rattle.example_nodes.specs.DecodedCalls.{gets_same_code, gets_same_graph, closes_code, closes_graph, shuts_code, shuts_graph, gate_close_code, gate_close_graph};
ghost use Rattle.example_nodes.specs.Calling.{gets_same_nodes, closes_nodes, shuts_nodes, gate_close_nodes};

/// The nodes of a method that calls a static one, with an argument and a result.
pub fn nodes_of_gets_same()
    ensures { IsLowered (program_with gets_same) 4 main_pool gets_same_code gets_same_graph gets_same_nodes }
{}

/// Those of one that calls a method of a class.
pub fn nodes_of_closes()
    ensures { IsLowered (program_with closes) 4 main_pool closes_code closes_graph closes_nodes }
{}

/// Those of one that calls a method of an interface.
pub fn nodes_of_shuts()
    ensures { IsLowered (program_with shuts) 4 main_pool shuts_code shuts_graph shuts_nodes }
{}

/// Those of one that calls the method of its superclass.
pub fn nodes_of_gate_close()
    ensures { IsLowered (program_with closes) 3 gate_pool gate_close_code gate_close_graph gate_close_nodes }
{}
