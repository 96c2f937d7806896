//! That nodes of other methods with calls, written by hand, are those that the rules give.

ghost use Rattle.std.specs.Prelude.{[]};
ghost use Rattle.example_machine.specs.Calling.{main_pool, program_with, closes, hashes, rings, keeps, fails, closes_by_interface, gets_none, gets_fresh, calls_same};
ghost use Rattle.lowering_spec.specs.LoweredMethods.{IsLowered};
ghost use Rattle.example_nodes.specs.DecodedCalls.{hashes_code, hashes_graph, rings_code, rings_graph, keeps_code, keeps_graph, fails_code, fails_graph, closes_by_interface_code, closes_by_interface_graph, gets_none_code, gets_none_graph, gets_fresh_code, gets_fresh_graph, calls_same_code, calls_same_graph, same_code, same_graph, door_close_code, door_close_graph};
ghost use Rattle.example_nodes.specs.Calling.{hashes_nodes, rings_nodes, keeps_nodes, fails_nodes, closes_by_interface_nodes, gets_none_nodes, gets_fresh_nodes, calls_same_nodes, same_nodes, returns_only};

/// The nodes of a method that calls one on an array.
pub fn nodes_of_hashes()
    ensures { IsLowered (program_with hashes) 4 main_pool hashes_code hashes_graph hashes_nodes }
{}

/// Those of one that calls a described method.
pub fn nodes_of_rings()
    ensures { IsLowered (program_with rings) 4 main_pool rings_code rings_graph rings_nodes }
{}

/// Those of one that calls methods that keep an object, and give it.
pub fn nodes_of_keeps()
    ensures { IsLowered (program_with keeps) 4 main_pool keeps_code keeps_graph keeps_nodes }
{}

/// Those of one that catches what a described method throws.
pub fn nodes_of_fails()
    ensures { IsLowered (program_with fails) 4 main_pool fails_code fails_graph fails_nodes }
{}

/// Those of one that calls a method of an interface that a class has.
pub fn nodes_of_closes_by_interface()
    ensures { IsLowered (program_with closes_by_interface) 4 main_pool closes_by_interface_code closes_by_interface_graph closes_by_interface_nodes }
{}

/// Those of one that gets null.
pub fn nodes_of_gets_none()
    ensures { IsLowered (program_with gets_none) 4 main_pool gets_none_code gets_none_graph gets_none_nodes }
{}

/// Those of one that gets a new object.
pub fn nodes_of_gets_fresh()
    ensures { IsLowered (program_with gets_fresh) 4 main_pool gets_fresh_code gets_fresh_graph gets_fresh_nodes }
{}

/// Those of one that calls a static method of its own class.
pub fn nodes_of_calls_same()
    ensures { IsLowered (program_with calls_same) 4 main_pool calls_same_code calls_same_graph calls_same_nodes }
{}

/// Those of that method.
pub fn nodes_of_same()
    ensures { IsLowered (program_with calls_same) 5 main_pool same_code same_graph same_nodes }
{}

/// Those of one that only returns.
pub fn nodes_of_door_close()
    ensures { IsLowered (program_with closes) 2 [] door_close_code door_close_graph (returns_only 2) }
{}
