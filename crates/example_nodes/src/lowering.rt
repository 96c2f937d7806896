//! That nodes written by hand are those that the rules give for the code of a method.

ghost use Rattle.example_machine.specs.Within.{main_pool, program_with, makes, switch, wide_iinc, links, counts, statics, constant, tables, boxes, box_cast};
ghost use Rattle.lowering_spec.specs.LoweredMethods.{IsLowered};
ghost use Rattle.example_nodes.specs.Decoded.{makes_code, makes_graph, switch_code, switch_graph, wide_iinc_code, wide_iinc_graph, links_code, links_graph, counts_code, counts_graph, statics_code, statics_graph, constant_code, constant_graph, tables_code, tables_graph, boxes_code, boxes_graph, box_cast_code, box_cast_graph};
ghost use Rattle.example_nodes.specs.Within.{makes_nodes, switch_nodes, wide_iinc_nodes, links_nodes, counts_nodes, statics_nodes, constant_nodes, tables_nodes, boxes_nodes, box_cast_nodes};

/// The nodes of a method that makes an object.
pub fn nodes_of_makes()
    ensures { IsLowered (program_with 7 makes) 0 main_pool makes_code makes_graph makes_nodes }
{}

/// Those of one with a switch: its successors are the targets.
pub fn nodes_of_switch()
    ensures { IsLowered (program_with 7 switch) 0 main_pool switch_code switch_graph switch_nodes }
{}

/// Those of one with a wide iinc.
pub fn nodes_of_wide_iinc()
    ensures { IsLowered (program_with 7 wide_iinc) 0 main_pool wide_iinc_code wide_iinc_graph wide_iinc_nodes }
{}

/// Those of one that writes and reads a field.
pub fn nodes_of_links()
    ensures { IsLowered (program_with 7 links) 0 main_pool links_code links_graph links_nodes }
{}

/// Those of one that does so with a field of a primitive type.
pub fn nodes_of_counts()
    ensures { IsLowered (program_with 7 counts) 0 main_pool counts_code counts_graph counts_nodes }
{}

/// Those of one that does so with a static field.
pub fn nodes_of_statics()
    ensures { IsLowered (program_with 7 statics) 0 main_pool statics_code statics_graph statics_nodes }
{}

/// Those of one that loads a string.
pub fn nodes_of_constant()
    ensures { IsLowered (program_with 7 constant) 0 main_pool constant_code constant_graph constant_nodes }
{}

/// Those of one that makes an array of arrays.
pub fn nodes_of_tables()
    ensures { IsLowered (program_with 7 tables) 0 main_pool tables_code tables_graph tables_nodes }
{}

/// Those of one that writes and reads an element.
pub fn nodes_of_boxes()
    ensures { IsLowered (program_with 7 boxes) 0 main_pool boxes_code boxes_graph boxes_nodes }
{}

/// Those of one with a cast.
pub fn nodes_of_box_cast()
    ensures { IsLowered (program_with 7 box_cast) 0 main_pool box_cast_code box_cast_graph box_cast_nodes }
{}
