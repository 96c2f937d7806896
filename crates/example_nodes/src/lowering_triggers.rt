//! That nodes of methods that may start initialisers, those of initialisers, and those of a return of a reference, written by hand,
//! are those that the rules give.

ghost use Rattle.std.specs.Prelude.{[]};
ghost use Rattle.example_machine.specs.Initialising.{main_pool, broken_pool, program_with, makes_ready, makes_late, makes_table, reads_ready, writes_ready, makes_broken};
ghost use Rattle.lowering_spec.specs.LoweredMethods.{IsLowered};
ghost use Rattle.example_nodes.specs.DecodedCalls.{makes_ready_code, makes_ready_graph, makes_late_code, makes_late_graph, makes_table_code, makes_table_graph, reads_ready_code, reads_ready_graph, writes_ready_code, writes_ready_graph, breaks_code, breaks_graph, ready_starts_code, ready_starts_graph, finds_code, finds_graph, find_gate_code, find_gate_graph, makes_broken_code, makes_broken_graph};
ghost use Rattle.example_nodes.specs.Giving.{main_pool as finding_pool, finding, finds_nodes, find_gate_nodes};
ghost use Rattle.example_nodes.specs.Initialising.{makes_ready_nodes, makes_late_nodes, makes_table_nodes, reads_ready_nodes, writes_ready_nodes, breaks_nodes, initialiser_nodes, program_with_errors, makes_broken_nodes};

/// The nodes of a method that may start an initialiser.
pub fn nodes_of_makes_ready()
    ensures { IsLowered (program_with makes_ready) 1 main_pool makes_ready_code makes_ready_graph makes_ready_nodes }
{}

/// Those of one that may start that of a superclass.
pub fn nodes_of_makes_late()
    ensures { IsLowered (program_with makes_late) 1 main_pool makes_late_code makes_late_graph makes_late_nodes }
{}

/// Those of one that reads a static field of a primitive type.
pub fn nodes_of_reads_ready()
    ensures { IsLowered (program_with reads_ready) 1 main_pool reads_ready_code reads_ready_graph reads_ready_nodes }
{}

/// Those of one that may start that of a superinterface.
pub fn nodes_of_makes_table()
    ensures { IsLowered (program_with makes_table) 1 main_pool makes_table_code makes_table_graph makes_table_nodes }
{}

/// Those of one that writes a static field of a primitive type.
pub fn nodes_of_writes_ready()
    ensures { IsLowered (program_with writes_ready) 1 main_pool writes_ready_code writes_ready_graph writes_ready_nodes }
{}

/// Those of an initialiser that throws.
pub fn nodes_of_breaks()
    ensures { IsLowered (program_with makes_ready) 0 broken_pool breaks_code breaks_graph breaks_nodes }
{}

/// Those of one that returns.
pub fn nodes_of_ready_starts()
    ensures { IsLowered (program_with makes_ready) 3 [] ready_starts_code ready_starts_graph (initialiser_nodes 3) }
{}

/// Those of a method that gets a reference from another one.
pub fn nodes_of_finds()
    ensures { IsLowered finding 4 finding_pool finds_code finds_graph finds_nodes }
{}

/// Those of that one.
pub fn nodes_of_find_gate()
    ensures { IsLowered finding 5 finding_pool find_gate_code find_gate_graph find_gate_nodes }
{}

/// Those of a method that may start an initialiser, where the program has the errors of initialisation.
pub fn nodes_of_makes_broken()
    ensures { IsLowered (program_with_errors makes_broken) 1 main_pool makes_broken_code makes_broken_graph makes_broken_nodes }
{}
