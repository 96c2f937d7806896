//! Triggers of an initialiser beside new of its class.

ghost use Rattle.example_machine.specs.Initialising.{makes_late, makes_table, calls_ready, reads_ready, writes_ready};
ghost use Rattle.example_nodes.specs.Initialising.{StartsInitialiser, StartsReady, makes_late_nodes, makes_table_nodes, calls_ready_nodes, reads_ready_nodes, writes_ready_nodes};

/// The initialiser of a superclass starts at new.
pub fn an_initialiser_of_a_superclass_starts()
    ensures { StartsReady makes_late makes_late_nodes }
{}

/// That of a superinterface starts there.
pub fn an_initialiser_of_a_superinterface_starts()
    ensures { StartsInitialiser 5 makes_table makes_table_nodes }
{}

/// An initialiser starts at the call of a static method.
pub fn an_initialiser_starts_at_a_call()
    ensures { StartsReady calls_ready calls_ready_nodes }
{}

/// It starts at a static field, also where nothing is read.
pub fn an_initialiser_starts_at_a_field()
    ensures { StartsReady reads_ready reads_ready_nodes }
{}

/// It starts at a write of a static field, also where nothing is written.
pub fn an_initialiser_starts_at_a_write()
    ensures { StartsReady writes_ready writes_ready_nodes }
{}
